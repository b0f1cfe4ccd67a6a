// The texts of faults, passes and reports.
ghost use Rattle.std.specs.Prelude.{◌≡◌, Some};
ghost use Rattle.ingest.specs.Faults.{passed_up};
ghost use Rattle.std.specs.Fmt.{WritesOnOk};
ghost use Rattle.ingest.specs.Texts.{OfSource, ingest_fault_fields, fault_name, pass_name, report_text};

use crate::account::IngestReport;
use crate::fault::{JaggedIngestError, LeafError};
use crate::record::ConversionPass;
use std::error::Error;
use std::fmt;

impl JaggedIngestError {
    // The name alone.
    fn name(&self) -> &'static str
        ensures { result.now ≡ fault_name self.now }
    {
        match self {
            JaggedIngestError::CommittedVectorTooShort { .. } => "CommittedVectorTooShort",
            JaggedIngestError::ColumnCountMismatch { .. } => "ColumnCountMismatch",
            JaggedIngestError::ColumnHeightMismatch { .. } => "ColumnHeightMismatch",
            JaggedIngestError::ZeroStride { .. } => "ZeroStride",
            JaggedIngestError::StrideOutOfRange { .. } => "StrideOutOfRange",
            JaggedIngestError::PackedWordsTooShort { .. } => "PackedWordsTooShort",
            JaggedIngestError::TableOutOfOrder { .. } => "TableOutOfOrder",
            JaggedIngestError::PlaceOutsideBlock { .. } => "PlaceOutsideBlock",
            JaggedIngestError::ColumnHeightOverflow { .. } => "ColumnHeightOverflow",
            JaggedIngestError::BufferTooShort { .. } => "BufferTooShort",
            JaggedIngestError::NoSuchColumn { .. } => "NoSuchColumn",
        }
    }

    // Writes a fault of one column's source.
    fn fmt_of_source<W: fmt::Write>(&self, f: &mut fmt::Formatter<W>) -> fmt::Result
        ensures { OfSource self.now → WritesOnOk W.write_str_gives f.old result (ingest_fault_fields self.now) f.new }
    {
        let name = self.name();
        match self {
            JaggedIngestError::ColumnHeightMismatch {
                column,
                expected,
                actual,
            } => write!(
                f,
                "{name} column={column} expected={expected} actual={actual}"
            ),
            JaggedIngestError::ZeroStride { column }
            | JaggedIngestError::ColumnHeightOverflow { column } => {
                write!(f, "{name} column={column}")
            }
            JaggedIngestError::StrideOutOfRange {
                column,
                required,
                available,
            }
            | JaggedIngestError::PackedWordsTooShort {
                column,
                required,
                available,
            } => write!(
                f,
                "{name} column={column} required={required} available={available}"
            ),
            JaggedIngestError::PlaceOutsideBlock { column, record } => {
                write!(f, "{name} column={column} record={record}")
            }
            _ => Ok(()),
        }
    }
}

// A fault is told by its name and its fields.
impl fmt::Display for JaggedIngestError {
    ghost output = { λ e. Some (ingest_fault_fields e) };

    fn fmt<W: fmt::Write>(&self, f: &mut fmt::Formatter<W>) -> fmt::Result {
        let name = self.name();
        match self {
            JaggedIngestError::CommittedVectorTooShort {
                required,
                available,
            }
            | JaggedIngestError::BufferTooShort {
                required,
                available,
            } => { write!(f, "{name} required={required} available={available}") }
            JaggedIngestError::ColumnCountMismatch { expected, actual } => {
                write!(f, "{name} expected={expected} actual={actual}")
            }
            JaggedIngestError::TableOutOfOrder { record } => write!(f, "{name} record={record}"),
            JaggedIngestError::NoSuchColumn { column, columns } => {
                write!(f, "{name} column={column} columns={columns}")
            }
            _ => self.fmt_of_source(f),
        }
    }
}

impl Error for JaggedIngestError {}

// A leaf's fault is told as the fault that a reading passes up for it.
impl fmt::Display for LeafError {
    ghost output = { λ e. Some (ingest_fault_fields (passed_up e)) };

    fn fmt<W: fmt::Write>(&self, f: &mut fmt::Formatter<W>) -> fmt::Result {
        JaggedIngestError::from(*self).fmt(f)
    }
}

impl Error for LeafError {}

// A pass is told by its name.
impl fmt::Display for ConversionPass {
    ghost output = { λ p. Some (pass_name p) };

    fn fmt<W: fmt::Write>(&self, f: &mut fmt::Formatter<W>) -> fmt::Result {
        match self {
            ConversionPass::Shared => write!(f, "Shared"),
            ConversionPass::Copied => write!(f, "Copied"),
            ConversionPass::Gathered => write!(f, "Gathered"),
            ConversionPass::Widened => write!(f, "Widened"),
        }
    }
}

// A report is told by what each pass is charged, and by what it answers of itself.
impl fmt::Display for IngestReport {
    ghost output = { λ r. Some (report_text r) };

    fn fmt<W: fmt::Write>(&self, f: &mut fmt::Formatter<W>) -> fmt::Result {
        let IngestReport {
            shared,
            copied,
            gathered,
            widened,
            envelope,
        } = self;
        write!(
            f,
            "shared={shared} copied={copied} gathered={gathered} widened={widened}"
        )?;
        write!(
            f,
            " live={} converted={} envelope={envelope} reads_no_cell={}",
            self.live(),
            self.converted(),
            self.reads_no_cell()
        )
    }
}
