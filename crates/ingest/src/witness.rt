// A committed vector as it lies, and the views that are handed on as the witness.
ghost use Rattle.std.specs.Prelude.{◌≡◌, length, take, is_some, nat_le, IfOk};
ghost use Rattle.std.specs.Option.{IfSome};
ghost use Rattle.ring.specs.Checks.{verdict};
ghost use Rattle.layout.specs.Layout.{shape};
ghost use Rattle.layout.specs.Shape.{capacity};
ghost use Rattle.ingest.specs.Charges.{outcome, CommittedReport};
ghost use Rattle.ingest.specs.Vector.{vector_checks, buffer_checks};

use crate::account::IngestReport;
use crate::fault::JaggedIngestError;
use layout::JaggedLayout;
use ring::Ring;

// The cells at the front that hold the dense vector, or none where there are too few.
fn dense_part<'a, R: Ring>(layout: &JaggedLayout, cells: &'a [R]) -> Option<&'a [R]>
    ensures enough { is_some result ≡ nat_le (capacity (shape layout.now)) (length cells.now) }
    ensures view { IfSome result (λ w. (w.now ≡ take (capacity (shape layout.now)) cells.now) × (w.ref_ptr ≡ cells.entry.ref_ptr)) }
{
    let required = layout.dense_capacity();
    if cells.len() < required {
        return None;
    }
    // Neither `get` nor `split_at_checked` of a slice says where the cells lie, which the views promise.
    Some(&cells[..required])
}

// Reads a dense vector that its producer holds already: no cell is read or written.
pub fn read_committed<R: Ring>(
    layout: &JaggedLayout,
    cells: &[R],
) -> Result<IngestReport, JaggedIngestError>
    ensures answer { outcome result ≡ verdict (vector_checks (shape layout.now) (length cells.now)) tt }
    ensures report { IfOk result (CommittedReport (shape layout.now)) }
{
    witness_of_vector(layout, cells)?;
    Ok(IngestReport {
        shared: layout.area(),
        copied: 0,
        gathered: 0,
        widened: 0,
        envelope: 0,
    })
}

// The witness in a committed vector: the producer's own cells.
pub fn witness_of_vector<'a, R: Ring>(
    layout: &JaggedLayout,
    cells: &'a [R],
) -> Result<&'a [R], JaggedIngestError>
    ensures answer { outcome result ≡ verdict (vector_checks (shape layout.now) (length cells.now)) tt }
    ensures view { IfOk result (λ w. (w.now ≡ take (capacity (shape layout.now)) cells.now) × (w.ref_ptr ≡ cells.entry.ref_ptr)) }
{
    dense_part(layout, cells).ok_or(JaggedIngestError::CommittedVectorTooShort {
        required: layout.dense_capacity(),
        available: cells.len(),
    })
}

// The witness in a buffer that columns were read into: the buffer's own cells.
// A call beside that for a vector, since too few cells are another fault here.
pub fn witness_of_buffer<'a, R: Ring>(
    layout: &JaggedLayout,
    buffer: &'a [R],
) -> Result<&'a [R], JaggedIngestError>
    ensures answer { outcome result ≡ verdict (buffer_checks (shape layout.now) (length buffer.now)) tt }
    ensures view { IfOk result (λ w. (w.now ≡ take (capacity (shape layout.now)) buffer.now) × (w.ref_ptr ≡ buffer.entry.ref_ptr)) }
{
    dense_part(layout, buffer).ok_or(JaggedIngestError::BufferTooShort {
        required: layout.dense_capacity(),
        available: buffer.len(),
    })
}
