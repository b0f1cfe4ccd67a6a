// Tables of records: their order, and the heights and passes of their columns.
ghost use Rattle.std.specs.Prelude.{◌≡◌, ℕ, ◌^◌, ◌<◌, ◌≤◌, [], ◌∷◌, length, take, nat_le, IfOk, MatchResult, OnOk};
ghost use Rattle.ring.specs.Checks.{verdict, when};
ghost use Rattle.ring.specs.Bytes.{over};
ghost use Rattle.ingest.specs.declared.fault.JaggedIngestError.TheVariants.{ColumnHeightOverflow};
ghost use Rattle.ingest.specs.Asked.{height_checks, pass_checks, overflow_checks, heights_checks};
ghost use Rattle.ingest.specs.Charges.{outcome};
ghost use Rattle.ingest.specs.Order.{order_check, wrong_record, LowestWrong};
ghost use Rattle.ingest.specs.Parts.{HeightsByParts, PassesByParts};
ghost use Rattle.ingest.specs.Table.{leaf_height, leaf_pass, height_of, heights_of, pass_of};

use crate::fault::JaggedIngestError;
use crate::ordered::Ordered;
use crate::record::{ConversionPass, MAX_RECORDS, Record};
use std::convert::Infallible;

// Refuses a table whose runs do not follow one another, or that lacks a record or has one too many.
pub fn check_order(table: &[Record], sources: usize) -> Result<(), JaggedIngestError>
    ensures answer { result ≡ verdict (order_check table.now sources ∷ []) tt }
    ensures lowest { LowestWrong table.now sources (wrong_record table.now sources) }
{
    // Where the next run begins; a sum of two indexes, so it can be past every index.
    // An index is widened by `as`, since no `From` makes a `u128` of it.
    let mut next = sources as u128;
    for (record, entry) in table.iter().enumerate() {
        if record as u128 >= next || record >= MAX_RECORDS {
            return Err(JaggedIngestError::TableOutOfOrder { record });
        }
        if let Record::Chunked { from, count } = *entry {
            if from as u128 != next {
                return Err(JaggedIngestError::TableOutOfOrder { record });
            }
            next = from as u128 + count as u128;
        }
    }
    let record = table.len();
    if (record as u128) < next {
        return Err(JaggedIngestError::TableOutOfOrder { record });
    }
    Ok(())
}

impl Record {
    // The height that a leaf tells; a chunk tells none.
    pub(crate) fn own_height(self) -> usize
        ensures { result ≡ leaf_height self }
    {
        match self {
            Record::Dense { height, .. }
            | Record::Interleaved { height, .. }
            | Record::Bits { height, .. } => height,
            Record::Chunked { .. } => 0,
        }
    }

    // The pass that a leaf's kind needs.
    fn own_pass(self) -> ConversionPass
        ensures { result ≡ leaf_pass self }
    {
        match self {
            Record::Dense { .. } | Record::Chunked { .. } => ConversionPass::Copied,
            Record::Interleaved { .. } => ConversionPass::Gathered,
            Record::Bits { .. } => ConversionPass::Widened,
        }
    }
}

impl<'a> Ordered<'a> {
    // Checks the order of a table.
    pub(crate) fn check(
        records: &'a [Record],
        sources: usize,
    ) -> Result<Ordered<'a>, JaggedIngestError>
        ensures answer { outcome result ≡ verdict (order_check records.now sources ∷ []) tt }
        ensures same { IfOk result (λ o. (o.records.now ≡ records.now) × (o.sources ≡ sources)) }
    {
        check_order(records, sources)?;
        Ok(Ordered { records, sources })
    }

    // A record's height, for the column that it belongs to.
    // A sum over a chunk's run and not a step of `try_fold`: the project keeps the height in this form.
    pub(crate) fn height_of(&self, record: usize, column: usize) -> Result<usize, JaggedIngestError>
        requires { «record» < length self.now.records.now }
        ensures { result ≡ verdict (when (nat_le (2 ^ 64) (height_of self.now.records.now «record»)) (ColumnHeightOverflow column) ∷ []) (height_of self.now.records.now «record») }
    {
        match self.records[record] {
            Record::Chunked { from, count } => {
                let mut total: usize = 0;
                for (part, &entry) in self.records[from..from + count].iter().enumerate() {
                    let rows = match entry {
                        Record::Chunked { .. } => self.height_of(from + part, column)?,
                        leaf => leaf.own_height(),
                    };
                    total = total
                        .checked_add(rows)
                        .ok_or(JaggedIngestError::ColumnHeightOverflow { column })?;
                }
                Ok(total)
            }
            leaf => Ok(leaf.own_height()),
        }
    }

    // A record's pass.
    pub(crate) fn pass_of(&self, record: usize) -> ConversionPass
        requires { «record» < length self.now.records.now }
        ensures { result ≡ pass_of self.now.records.now «record» }
    {
        let highest: Result<ConversionPass, Infallible> = self.try_fold(
            record,
            1,
            ConversionPass::Copied,
            &|best: ConversionPass, _: usize, leaf: Record| Ok(best.higher(leaf.own_pass())),
        );
        let Ok(pass) = highest;
        pass
    }

    // Refuses a column whose height is no machine index.
    fn check_heights(&self) -> Result<(), JaggedIngestError>
        ensures { result ≡ verdict (overflow_checks self.now.records.now self.now.sources) tt }
    {
        // A column is asked for by its number; what its record holds is looked at by what is called.
        for column in 0..self.sources {
            self.height_of(column, column)?;
        }
        Ok(())
    }

    // Writes the heights of all columns to the front of the slice.
    fn put_heights(&self, out: &mut [usize])
        requires fit { (y : ℕ) → y < self.now.sources → height_of self.now.records.now y < 2 ^ 64 }
        requires room { self.now.sources ≤ length out.old }
        ensures { out.new ≡ over (take self.now.sources (heights_of self.now.records.now)) out.old }
    {
        for (column, height) in out[..self.sources].iter_mut().enumerate() {
            *height = self.height_of(column, column).unwrap();
        }
    }
}

// The number of rows of a column.
pub fn height(table: &[Record], sources: usize, column: usize) -> Result<usize, JaggedIngestError>
    ensures answer { result ≡ verdict (height_checks table.now sources column) (height_of table.now column) }
    ensures parts { OnOk result (HeightsByParts table.now) }
{
    if column >= sources {
        return Err(JaggedIngestError::NoSuchColumn {
            column,
            columns: sources,
        });
    }
    let ordered = Ordered::check(table, sources)?;
    ordered.height_of(column, column)
}

// The most expensive pass that a column needs.
// The column is looked for as in `height`: a function for that test and the order would promise more lines than it spares.
pub fn pass(
    table: &[Record],
    sources: usize,
    column: usize,
) -> Result<ConversionPass, JaggedIngestError>
    ensures answer { result ≡ verdict (pass_checks table.now sources column) (pass_of table.now column) }
    ensures highest { OnOk result (PassesByParts table.now) }
{
    if column >= sources {
        return Err(JaggedIngestError::NoSuchColumn {
            column,
            columns: sources,
        });
    }
    let ordered = Ordered::check(table, sources)?;
    Ok(ordered.pass_of(column))
}

// Writes the heights of all columns to the front of the slice, and tells how many there are.
pub fn heights(
    table: &[Record],
    sources: usize,
    out: &mut [usize],
) -> Result<usize, JaggedIngestError>
    ensures answer { result ≡ verdict (heights_checks table.now sources (length out.old)) sources }
    ensures written { MatchResult result (λ _. out.new ≡ over (take sources (heights_of table.now)) out.old) (λ _. out.new ≡ out.old) }
{
    let ordered = Ordered::check(table, sources)?;
    ordered.check_heights()?;
    if out.len() < sources {
        return Err(JaggedIngestError::BufferTooShort {
            required: sources,
            available: out.len(),
        });
    }
    ordered.put_heights(out);
    Ok(sources)
}
