// The weights of a point, the selector's table, and its values at dense points.
ghost use Rattle.std.specs.Prelude.{◌≡◌, ℕ, ◌<◌, map, length, drop, slice_index_or, MatchResult};
ghost use Rattle.ring.specs.Kinds.{words, word_value, residues, residue_value};
ghost use Rattle.layout.specs.Plan.{planned};
ghost use Rattle.selector.specs.Prefix.{weight_count};
ghost use Rattle.selector.specs.Selector.{Table};
ghost use Rattle.selector.specs.Weights.{eq};
ghost use Rattle.export.specs.Calls.{table_answer};
ghost use Rattle.export.specs.Refusals.{told};

use crate::layouts::layout_of;
use crate::refusal::{Refusal, told};
use ring::{Residue, Ring, Word};
use selector::{JaggedPoint, equality_prefix, evaluate, table};

// The C interface has no type parameters: a name for words, and one for residues, here and below.
#[unsafe(no_mangle)]
pub extern "C" fn mossplane_weights_words(point: &[Word], buffer: &mut [Word]) -> usize
    ensures count { result ≡ weight_count (length point.now) (length buffer.old) }
    ensures weights { (i : ℕ) → i < result → slice_index_or (map word_value buffer.new) i words.nought ≡ eq words (map word_value point.now) i }
    ensures kept { drop result buffer.new ≡ drop result buffer.old }
{
    equality_prefix(point, buffer)
}

#[unsafe(no_mangle)]
pub extern "C" fn mossplane_weights_residues(point: &[Residue], cells: &mut [Residue]) -> usize
    ensures count { result ≡ weight_count (length point.now) (length cells.old) }
    ensures weights { (i : ℕ) → i < result → slice_index_or (map residue_value cells.new) i residues.nought ≡ eq residues (map residue_value point.now) i }
    ensures kept { drop result cells.new ≡ drop result cells.old }
{
    equality_prefix(point, cells)
}

// Writes the selector's table.
fn table_of<R: Ring>(
    row_variables: usize,
    heights: &[usize],
    point: &JaggedPoint<'_, R>,
    buffer: &mut [R],
) -> Result<(), Refusal>
    ensures answer { result ≡ table_answer row_variables heights.now (length point.now.row.now) (length point.now.column.now) (length buffer.old) }
    ensures cells { MatchResult result (λ _. Table R.Ring.ops (planned row_variables heights.now 0) (map R.Ring.value point.now.row.now) (map R.Ring.value point.now.column.now) (map R.Ring.value buffer.new)) (λ _. buffer.new ≡ buffer.old) }
{
    let layout = layout_of(row_variables, heights)?;
    table(&layout, point, buffer)?;
    Ok(())
}

#[unsafe(no_mangle)]
pub extern "C" fn mossplane_table_words(
    row_variables: usize,
    heights: &[usize],
    row: &[Word],
    column: &[Word],
    buffer: &mut [Word],
) -> u8
    ensures number { result ≡ told (table_answer row_variables heights.now (length row.now) (length column.now) (length buffer.old)) }
    ensures cells { MatchResult (table_answer row_variables heights.now (length row.now) (length column.now) (length buffer.old)) (λ _. Table words (planned row_variables heights.now 0) (map word_value row.now) (map word_value column.now) (map word_value buffer.new)) (λ _. buffer.new ≡ buffer.old) }
{
    told(table_of(
        row_variables,
        heights,
        &JaggedPoint::new(row, column),
        buffer,
    ))
}

#[unsafe(no_mangle)]
pub extern "C" fn mossplane_table_residues(
    row_variables: usize,
    heights: &[usize],
    row: &[Residue],
    column: &[Residue],
    buffer: &mut [Residue],
) -> u8
    ensures number { result ≡ told (table_answer row_variables heights.now (length row.now) (length column.now) (length buffer.old)) }
    ensures cells { MatchResult (table_answer row_variables heights.now (length row.now) (length column.now) (length buffer.old)) (λ _. Table residues (planned row_variables heights.now 0) (map residue_value row.now) (map residue_value column.now) (map residue_value buffer.new)) (λ _. buffer.new ≡ buffer.old) }
{
    told(table_of(
        row_variables,
        heights,
        &JaggedPoint::new(row, column),
        buffer,
    ))
}

// Writes the selector's value at each dense point, which follow one another, until they run out.
fn values_of<R: Ring>(
    row_variables: usize,
    heights: &[usize],
    point: JaggedPoint<'_, R>,
    dense: &[R],
    values: &mut [R],
) -> Result<(), Refusal> {
    let layout = layout_of(row_variables, heights)?;
    let mut rest = dense;
    for value in values.iter_mut() {
        let Some(place) = rest.split_off(..layout.dense_variables()) else {
            break;
        };
        *value = evaluate(&layout, &point, place)?;
    }
    Ok(())
}

#[unsafe(no_mangle)]
pub extern "C" fn mossplane_values_words(
    row_variables: usize,
    heights: &[usize],
    row: &[Word],
    column: &[Word],
    dense: &[Word],
    values: &mut [Word],
) -> u8 {
    told(values_of(
        row_variables,
        heights,
        JaggedPoint::new(row, column),
        dense,
        values,
    ))
}

#[unsafe(no_mangle)]
pub extern "C" fn mossplane_values_residues(
    row_variables: usize,
    heights: &[usize],
    row: &[Residue],
    column: &[Residue],
    dense: &[Residue],
    values: &mut [Residue],
) -> u8 {
    told(values_of(
        row_variables,
        heights,
        JaggedPoint::new(row, column),
        dense,
        values,
    ))
}
