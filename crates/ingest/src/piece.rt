// Pieces of a column: tables whose first record alone is a column.
ghost use Rattle.std.specs.Prelude.{◌≡◌, map, length, drop, IfOk, MatchResult, OnOk};
ghost use Rattle.ring.specs.Bytes.{over};
ghost use Rattle.ring.specs.Checks.{verdict};
ghost use Rattle.ingest.specs.Charges.{outcome};
ghost use Rattle.ingest.specs.Cuts.{PieceByRows, PieceByCuts, RowLaws};
ghost use Rattle.ingest.specs.Piece.{piece_height_checks, piece_checks};
ghost use Rattle.ingest.specs.Rows.{rows_at};
ghost use Rattle.ingest.specs.Table.{height_of};

use crate::block::{Block, Extent};
use crate::fault::JaggedIngestError;
use crate::leaves::Leaves;
use crate::ordered::Ordered;
use crate::record::Record;
use ring::Ring;

// The number of rows of a piece for the named column.
pub fn piece_height(table: &[Record], column: usize) -> Result<usize, JaggedIngestError>
    ensures { result ≡ verdict (piece_height_checks table.now column) (height_of table.now 0) }
{
    let ordered = Ordered::check(table, 1)?;
    ordered.height_of(0, column)
}

// Runs every check of a piece.
fn check_piece<'a>(
    table: &'a [Record],
    column: usize,
    extent: Extent,
    room: usize,
) -> Result<Ordered<'a>, JaggedIngestError>
    ensures answer { outcome result ≡ verdict (piece_checks table.now column extent.cells extent.words room) tt }
    ensures same { IfOk result (λ o. (o.records.now ≡ table.now) × (o.sources ≡ 1)) }
{
    let ordered = Ordered::check(table, 1)?;
    let rows = ordered.height_of(0, column)?;
    ordered.check_leaves(0, column, extent)?;
    if room < rows {
        return Err(JaggedIngestError::BufferTooShort {
            required: rows,
            available: room,
        });
    }
    Ok(ordered)
}

// Writes the rows of a piece to the front of the cells that are lent for them, and tells how many.
pub fn write_piece<R: Ring>(
    table: &[Record],
    column: usize,
    cells: &[R],
    words: &[u64],
    out: &mut [R],
) -> Result<usize, JaggedIngestError>
    ensures answer { result ≡ verdict (piece_checks table.now column (length cells.now) (length words.now) (length out.old)) (height_of table.now 0) }
    ensures written { MatchResult result (λ _. map R.Ring.value out.new ≡ over (rows_at R.Ring.ops (map R.Ring.value cells.now) words.now table.now 0) (map R.Ring.value out.old)) (λ _. out.new ≡ out.old) }
    ensures same { OnOk result (PieceByRows R.Ring.ops (map R.Ring.value cells.now) words.now table.now (map R.Ring.value out.old) (map R.Ring.value out.new)) }
    ensures cuts { OnOk result (PieceByCuts R.Ring.ops (map R.Ring.value cells.now) words.now table.now (map R.Ring.value out.old) (map R.Ring.value out.new)) }
    ensures laws { OnOk result (RowLaws R.Ring.ops (map R.Ring.value cells.now) words.now table.now) }
    ensures kept { drop (height_of table.now 0) out.new ≡ drop (height_of table.now 0) out.old }
{
    let block = Block { cells, words };
    let ordered = check_piece(table, column, block.extent(), out.len())?;
    let mut leaves = Leaves::none();
    ordered.find_all(&mut leaves);
    Ok(ordered.write_leaves(&leaves, &block, out))
}
