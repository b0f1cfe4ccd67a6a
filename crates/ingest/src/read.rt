// Reads columns: every check first, then the rows into the caller's buffer.
ghost use Rattle.std.specs.Prelude.{◌≡◌, ◌<◌, map, length, drop, replicate, IfOk, MatchResult, OnOk};
ghost use Rattle.ring.specs.Bytes.{over};
ghost use Rattle.ring.specs.Checks.{verdict};
ghost use Rattle.layout.specs.Layout.{shape};
ghost use Rattle.layout.specs.Shape.{columns as columns_of, capacity as capacity_of};
ghost use Rattle.ingest.specs.Charges.{outcome};
ghost use Rattle.ingest.specs.Cuts.{ColumnsByRows, ColumnsByCuts, RowLaws};
ghost use Rattle.ingest.specs.Reading.{one_checks, columns_checks, read_checks, assembled, RowsPlaced, ColumnsReport, HeightsCountRows};

use crate::account::IngestReport;
use crate::block::{Block, Extent};
use crate::fault::JaggedIngestError;
use crate::leaves::Leaves;
use crate::ordered::Ordered;
use crate::record::Record;
use layout::JaggedLayout;
use ring::Ring;

impl<'a> Ordered<'a> {
    // Checks one column: its height, then its leaves.
    fn check_column(
        &self,
        column: usize,
        expected: usize,
        extent: Extent,
    ) -> Result<(), JaggedIngestError>
        requires { column < length self.now.records.now }
        ensures { result ≡ verdict (one_checks self.now.records.now extent.cells extent.words column expected) tt }
    {
        let actual = self.height_of(column, column)?;
        if actual != expected {
            return Err(JaggedIngestError::ColumnHeightMismatch {
                column,
                expected,
                actual,
            });
        }
        self.check_leaves(column, column, extent)?;
        Ok(())
    }

    // Checks each column in turn.
    fn check_columns(&self, layout: &JaggedLayout, extent: Extent) -> Result<(), JaggedIngestError>
        requires { self.now.sources ≡ columns_of (shape layout.now) }
        ensures { result ≡ verdict (columns_checks (shape layout.now) self.now.records.now extent.cells extent.words) tt }
    {
        for column in 0..self.sources {
            // The check and its faults need the column's number, and the layout tells a height by it: boundaries in pairs would be no plainer.
            let expected = layout.column_height(column).unwrap();
            self.check_column(column, expected, extent)?;
        }
        Ok(())
    }

    // Charges each column to its pass.
    fn charge(&self, layout: &JaggedLayout) -> IngestReport
        requires { self.now.sources ≡ columns_of (shape layout.now) }
        ensures { ColumnsReport (shape layout.now) self.now.records.now result }
    {
        let mut report = IngestReport::padding(layout.dense_capacity() - layout.area());
        for column in 0..self.sources {
            // As above, the height is told by the column.
            let rows = layout.column_height(column).unwrap();
            report.charge(self.pass_of(column), rows);
        }
        report
    }
}

// Runs every check of a reading.
fn check_reading<'a>(
    layout: &JaggedLayout,
    table: &'a [Record],
    sources: usize,
    extent: Extent,
    room: usize,
) -> Result<Ordered<'a>, JaggedIngestError>
    ensures answer { outcome result ≡ verdict (read_checks (shape layout.now) table.now sources extent.cells extent.words room) tt }
    ensures same { IfOk result (λ o. (o.records.now ≡ table.now) × (o.sources ≡ sources)) }
{
    let columns = layout.num_columns();
    if sources != columns {
        return Err(JaggedIngestError::ColumnCountMismatch {
            expected: columns,
            actual: sources,
        });
    }
    let ordered = Ordered::check(table, sources)?;
    ordered.check_columns(layout, extent)?;
    let required = layout.dense_capacity();
    if room < required {
        return Err(JaggedIngestError::BufferTooShort {
            required,
            available: room,
        });
    }
    Ok(ordered)
}

// Sets cells to zero.
// The selector has such a function too: three lines are no part of what the ring offers to both.
fn clear<R: Ring>(out: &mut [R])
    ensures { map R.Ring.value out.new ≡ replicate (length out.old) R.Ring.ops.nought }
{
    for cell in out.iter_mut() {
        *cell = R::zero();
    }
}

// Reads columns into the buffer: their rows one after the other, then zero up to the capacity.
pub fn read_columns<R: Ring>(
    layout: &JaggedLayout,
    table: &[Record],
    sources: usize,
    cells: &[R],
    words: &[u64],
    buffer: &mut [R],
) -> Result<IngestReport, JaggedIngestError>
    ensures answer { outcome result ≡ verdict (read_checks (shape layout.now) table.now sources (length cells.now) (length words.now) (length buffer.old)) tt }
    ensures written { MatchResult result (λ _. map R.Ring.value buffer.new ≡ over (assembled R.Ring.ops (shape layout.now) (map R.Ring.value cells.now) words.now table.now) (map R.Ring.value buffer.old)) (λ _. buffer.new ≡ buffer.old) }
    ensures kept { drop (capacity_of (shape layout.now)) buffer.new ≡ drop (capacity_of (shape layout.now)) buffer.old }
    ensures placed { OnOk result (RowsPlaced R.Ring.ops (shape layout.now) (map R.Ring.value cells.now) words.now table.now (map R.Ring.value buffer.new)) }
    ensures same { OnOk result (ColumnsByRows R.Ring.ops (shape layout.now) (map R.Ring.value cells.now) words.now table.now (map R.Ring.value buffer.old) (map R.Ring.value buffer.new)) }
    ensures cuts { OnOk result (ColumnsByCuts R.Ring.ops (shape layout.now) (map R.Ring.value cells.now) words.now table.now (map R.Ring.value buffer.old) (map R.Ring.value buffer.new)) }
    ensures laws { OnOk result (RowLaws R.Ring.ops (map R.Ring.value cells.now) words.now table.now) }
    ensures report { IfOk result (ColumnsReport (shape layout.now) table.now) }
    ensures heights { HeightsCountRows R.Ring.ops (map R.Ring.value cells.now) words.now table.now }
{
    let block = Block { cells, words };
    let ordered = check_reading(layout, table, sources, block.extent(), buffer.len())?;
    let mut leaves = Leaves::none();
    ordered.find_all(&mut leaves);
    let area = ordered.write_leaves(&leaves, &block, buffer);
    clear(&mut buffer[area..layout.dense_capacity()]);
    Ok(ordered.charge(layout))
}
