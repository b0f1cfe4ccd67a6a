// What is checked of a leaf before its rows are read.
ghost use Rattle.std.specs.Prelude.{◌≡◌, ◌+◌, ◌<◌, [], ◌∷◌, length};
ghost use Rattle.ring.specs.Checks.{verdict};
ghost use Rattle.ingest.specs.Leaves.{leaf_checks, place_check, strided_checks, packed_checks, checks_at};

use crate::block::Extent;
use crate::fault::LeafError;
use crate::ordered::Ordered;
use crate::record::Record;

// The rows that one word of bits holds.
pub(crate) const WORD_BITS: usize = 64;

impl Extent {
    // Checks record number `record`, a leaf of the column, against the lengths of the two blocks.
    pub(crate) fn check_leaf(
        self,
        entry: Record,
        record: usize,
        column: usize,
    ) -> Result<(), LeafError>
        ensures { result ≡ verdict (leaf_checks self.cells self.words column «record» entry) tt }
    {
        match entry {
            Record::Dense { place, height } => {
                check_place(column, record, self.cells, place, height)
            }
            Record::Interleaved {
                place,
                length,
                first,
                stride,
                height,
            } => {
                check_place(column, record, self.cells, place, length)?;
                check_strided(column, length, first, stride, height)
            }
            Record::Bits {
                place,
                words,
                height,
            } => {
                check_place(column, record, self.words, place, words)?;
                check_packed(column, words, height)
            }
            Record::Chunked { .. } => Ok(()),
        }
    }
}

// Checks that so many cells or words from the place on lie in a block of this length.
// What the block has after the place is compared, since the end may be no machine index.
fn check_place(
    column: usize,
    record: usize,
    block: usize,
    place: usize,
    count: usize,
) -> Result<(), LeafError>
    ensures { result ≡ verdict (place_check column «record» block (place + count) ∷ []) tt }
{
    if block < place || block - place < count {
        return Err(LeafError::PlaceOutsideBlock { column, record });
    }
    Ok(())
}

fn check_strided(
    column: usize,
    available: usize,
    first: usize,
    stride: usize,
    height: usize,
) -> Result<(), LeafError>
    ensures { result ≡ verdict (strided_checks column available first stride height) tt }
{
    // A leaf of no rows reads nothing, whatever its step.
    if height == 0 {
        return Ok(());
    }
    if stride == 0 {
        return Err(LeafError::ZeroStride { column });
    }
    // The last row is the only one that can leave the part.
    // An index is widened by `as`, since no `From` makes a `u128` of it.
    let required = first as u128 + (height as u128 - 1) * stride as u128 + 1;
    if required > available as u128 {
        return Err(LeafError::StrideOutOfRange {
            column,
            required: usize::try_from(required).unwrap_or(usize::MAX),
            available,
        });
    }
    Ok(())
}

fn check_packed(column: usize, available: usize, height: usize) -> Result<(), LeafError>
    ensures { result ≡ verdict (packed_checks column available height) tt }
{
    let required = height.div_ceil(WORD_BITS);
    if required > available {
        return Err(LeafError::PackedWordsTooShort {
            column,
            required,
            available,
        });
    }
    Ok(())
}

impl<'a> Ordered<'a> {
    // Checks the leaves of a record, in the order of their rows.
    pub(crate) fn check_leaves(
        &self,
        record: usize,
        column: usize,
        extent: Extent,
    ) -> Result<(), LeafError>
        requires { «record» < length self.now.records.now }
        ensures { result ≡ verdict (checks_at extent.cells extent.words column self.now.records.now «record») tt }
    {
        self.try_fold(
            record,
            1,
            (),
            &|_: (), number: usize, leaf: Record| { extent.check_leaf(leaf, number, column) },
        )
    }
}
