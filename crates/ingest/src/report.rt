// What a reading cost: rows charged to each pass, and the cells that pad the dense vector.
ghost use Rattle.std.specs.Prelude.{◌≡◌, ◌+◌, ◌^◌, ◌<◌, ◌&&◌, ◌==◌};
ghost use Rattle.ingest.specs.Charges.{charged_of, charge};

use crate::account::IngestReport;
use crate::record::ConversionPass;

impl IngestReport {
    // Nothing charged yet, and so many cells of padding.
    pub(crate) fn padding(envelope: usize) -> IngestReport
        ensures charges { (p : ConversionPass) → charged_of result p ≡ 0 }
        ensures envelope { result.envelope ≡ envelope }
    {
        IngestReport {
            shared: 0,
            copied: 0,
            gathered: 0,
            widened: 0,
            envelope,
        }
    }

    // The rows charged to a pass.
    pub fn charged(&self, pass: ConversionPass) -> usize
        ensures { result ≡ charged_of self.now pass }
    {
        match pass {
            ConversionPass::Shared => self.shared,
            ConversionPass::Copied => self.copied,
            ConversionPass::Gathered => self.gathered,
            ConversionPass::Widened => self.widened,
        }
    }

    // The rows of all columns.
    pub fn live(&self) -> usize
        ensures { result ≡ self.now.shared + self.now.copied + self.now.gathered + self.now.widened }
    {
        self.shared + self.copied + self.gathered + self.widened
    }

    // The rows that a conversion had to touch.
    pub fn converted(&self) -> usize
        ensures { result ≡ self.now.copied + self.now.gathered + self.now.widened }
    {
        self.copied + self.gathered + self.widened
    }

    // The cells written past the area, up to the capacity.
    pub fn envelope(&self) -> usize
        ensures { result ≡ self.now.envelope }
    {
        self.envelope
    }

    // Whether the reading read no cell and wrote none.
    pub fn reads_no_cell(&self) -> bool
        ensures { result ≡ (self.now.copied + self.now.gathered + self.now.widened == 0 && self.now.envelope == 0) }
    {
        self.converted() == 0 && self.envelope == 0
    }

    // One more column, charged whole to its pass.
    pub(crate) fn charge(&mut self, pass: ConversionPass, rows: usize)
        requires { self.old.shared + self.old.copied + self.old.gathered + self.old.widened + self.old.envelope + rows < 2 ^ 64 }
        ensures charges { (p : ConversionPass) → charged_of self.new p ≡ charged_of self.old p + charge p pass rows }
        ensures envelope { self.new.envelope ≡ self.old.envelope }
        ensures whole { self.new.shared + self.new.copied + self.new.gathered + self.new.widened ≡ self.old.shared + self.old.copied + self.old.gathered + self.old.widened + rows }
    {
        match pass {
            ConversionPass::Shared => self.shared += rows,
            ConversionPass::Copied => self.copied += rows,
            ConversionPass::Gathered => self.gathered += rows,
            ConversionPass::Widened => self.widened += rows,
        }
    }
}
