// Writes the rows of leaves into the dense vector.
ghost use Rattle.std.specs.Prelude.{◌≡◌, ℕ, ◌+◌, ◌-◌, ◌*◌, ◌<◌, ◌≤◌, map, length, drop, if◌then◌else◌, slice_index_or};
ghost use Rattle.std.specs.List.{All};
ghost use Rattle.ring.specs.Bytes.{over};
ghost use Rattle.ingest.specs.Found.{found};
ghost use Rattle.ingest.specs.Leaves.{words_for};
ghost use Rattle.ingest.specs.Rows.{bit_at, leaf_rows, found_rows, Sits, Within};
ghost use Rattle.ingest.specs.Table.{leaf_height};

use crate::block::Block;
use crate::leaf::WORD_BITS;
use crate::leaves::Leaves;
use crate::ordered::Ordered;
use crate::record::Record;
use ring::Ring;

// Row r is the cell at first + r × stride, counted from the place.
#[tactic(auto, using(crate::proofs::Written::row_le))]
fn write_strided<R: Ring>(cells: &[R], place: usize, first: usize, stride: usize, out: &mut [R])
    requires { 0 < length out.old → place + (first + (length out.old - 1) * stride) < length cells.now }
    ensures { (k : ℕ) → k < length out.old → slice_index_or (map R.Ring.value out.new) k R.Ring.ops.nought ≡ slice_index_or (map R.Ring.value cells.now) (place + (first + k * stride)) R.Ring.ops.nought }
{
    for (row, cell) in out.iter_mut().enumerate() {
        *cell = cells[place + (first + row * stride)];
    }
}

// Row r is bit r of the words from the place on, as zero or one.
fn write_bits<R: Ring>(words: &[u64], place: usize, out: &mut [R])
    requires { place + words_for (length out.old) ≤ length words.now }
    ensures { (k : ℕ) → k < length out.old → slice_index_or (map R.Ring.value out.new) k R.Ring.ops.nought ≡ (if bit_at words.now place k then R.Ring.ops.one else R.Ring.ops.nought) }
{
    for (row, cell) in out.iter_mut().enumerate() {
        let bit = (words[place + row / WORD_BITS] >> (row % WORD_BITS)) & 1;
        *cell = R::from_bool(bit == 1);
    }
}

impl<'a, R: Ring> Block<'a, R> {
    // Writes the rows of a leaf.
    fn write_leaf(&self, entry: Record, out: &mut [R])
        requires within { Within (length self.now.cells.now) (length self.now.words.now) entry }
        requires long { length out.old ≡ leaf_height entry }
        ensures { map R.Ring.value out.new ≡ leaf_rows R.Ring.ops (map R.Ring.value self.now.cells.now) self.now.words.now entry }
    {
        match entry {
            Record::Dense { place, height } => {
                out.copy_from_slice(&self.cells[place..place + height])
            }
            Record::Interleaved {
                place,
                first,
                stride,
                ..
            } => write_strided(self.cells, place, first, stride, out),
            Record::Bits { place, .. } => write_bits(self.words, place, out),
            Record::Chunked { .. } => {}
        }
    }
}

impl<'a> Ordered<'a> {
    // Writes the rows of the leaves to the front of the buffer, one leaf after the other, and tells how many.
    pub(crate) fn write_leaves<R: Ring>(
        &self,
        leaves: &Leaves,
        block: &Block<R>,
        out: &mut [R],
    ) -> usize
        requires sits { All (Sits (length block.now.cells.now) (length block.now.words.now) self.now.records.now) (found leaves.now) }
        requires room { length (found_rows R.Ring.ops (map R.Ring.value block.now.cells.now) block.now.words.now self.now.records.now (found leaves.now)) ≤ length out.old }
        ensures told { result ≡ length (found_rows R.Ring.ops (map R.Ring.value block.now.cells.now) block.now.words.now self.now.records.now (found leaves.now)) }
        ensures written { map R.Ring.value out.new ≡ over (found_rows R.Ring.ops (map R.Ring.value block.now.cells.now) block.now.words.now self.now.records.now (found leaves.now)) (map R.Ring.value out.old) }
        ensures kept { (n : ℕ) → result ≤ n → drop n out.new ≡ drop n out.old }
    {
        // The place moves on by the rows of each leaf, which no iterator counts.
        let mut at = 0;
        for &record in leaves.as_slice() {
            let entry = self.records[record];
            let rows = entry.own_height();
            block.write_leaf(entry, &mut out[at..at + rows]);
            at += rows;
        }
        at
    }
}
