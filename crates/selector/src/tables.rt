// The selector's table: the weight of each row of each column at its place in the envelope.
ghost use Rattle.std.specs.Prelude.{◌≡◌, ℕ, ◌+◌, ◌-◌, ◌^◌, ◌<◌, ◌≤◌, map, length, drop, MatchResult, OnOk, slice_index_or};
ghost use Rattle.ring.specs.Checks.{verdict};
ghost use Rattle.layout.specs.Layout.{shape};
ghost use Rattle.layout.specs.Shape.{Lawful, columns, area, capacity};
ghost use Rattle.selector.specs.Faults.{table_checks, room_checks};
ghost use Rattle.selector.specs.Selector.{Table, Columns};
ghost use Rattle.selector.specs.Weights.{eq};

use crate::error::JaggedError;
use crate::fitted::FittedPoint;
use crate::point::JaggedPoint;
use crate::weights::{weigh, weight_at};
use layout::JaggedLayout;
use ring::Ring;

// Writes the selector's table into the first cells of the buffer, as many as the layout's capacity.
pub fn table<R: Ring>(
    layout: &JaggedLayout,
    point: &JaggedPoint<'_, R>,
    buffer: &mut [R],
) -> Result<(), JaggedError>
    ensures answer { result ≡ verdict (table_checks (shape layout.now) (length point.now.row.now) (length point.now.column.now) (length buffer.old)) tt }
    ensures cells { MatchResult result (λ _. Table R.Ring.ops (shape layout.now) (map R.Ring.value point.now.row.now) (map R.Ring.value point.now.column.now) (map R.Ring.value buffer.new)) (λ _. buffer.new ≡ buffer.old) }
    ensures kept { drop (capacity (shape layout.now)) buffer.new ≡ drop (capacity (shape layout.now)) buffer.old }
{
    let fitted = FittedPoint::new(layout, point)?;
    check_room(layout, buffer.len())?;
    fitted.write_table(&mut buffer[..layout.dense_capacity()]);
    Ok(())
}

// That the cells are at least as many as the capacity.
fn check_room(layout: &JaggedLayout, available: usize) -> Result<(), JaggedError>
    ensures answer { result ≡ verdict (room_checks (shape layout.now) available) tt }
    ensures room { OnOk result (capacity (shape layout.now) ≤ available) }
{
    let required = layout.dense_capacity();
    if available < required {
        return Err(JaggedError::BufferTooShort {
            required,
            available,
        });
    }
    Ok(())
}

impl<R: Ring> FittedPoint<'_, R> {
    // Writes the table over as many cells as the capacity.
    fn write_table(&self, cells: &mut [R])
        requires { length cells.old ≡ capacity (shape self.now.layout.now) }
        ensures table { Table R.Ring.ops (shape self.now.layout.now) (map R.Ring.value self.now.row.now) (map R.Ring.value self.now.column.now) (map R.Ring.value cells.new) }
        ensures lawful { Lawful (shape self.now.layout.now) }
    {
        self.fill_columns(cells);
        blank(&mut cells[self.layout.area()..]);
    }

    // Writes each column's weights over its interval.
    fn fill_columns(&self, cells: &mut [R])
        requires { length cells.old ≡ capacity (shape self.now.layout.now) }
        ensures live { Columns R.Ring.ops (shape self.now.layout.now) (columns (shape self.now.layout.now)) (map R.Ring.value self.now.row.now) (map R.Ring.value self.now.column.now) (map R.Ring.value cells.new) }
        ensures lawful { Lawful (shape self.now.layout.now) }
    {
        let boundaries = self.layout.cumulative_heights();
        for (y, (start, end)) in boundaries.iter().zip(&boundaries[1..]).enumerate() {
            let weight = weight_at(self.column, y);
            fill_column(weight, self.row, *start, *end, cells);
        }
    }
}

// Writes one column's weights over the interval from start to end.
fn fill_column<R: Ring>(weight: R, row: &[R], start: usize, end: usize, cells: &mut [R])
    requires ordered { start ≤ end }
    requires room { end ≤ length cells.old }
    requires tall { end - start ≤ 2 ^ length row.now }
    ensures weights { (i : ℕ) → i < end - start → slice_index_or (map R.Ring.value cells.new) (start + i) R.Ring.ops.nought ≡ R.Ring.ops.times (eq R.Ring.ops (map R.Ring.value row.now) i) (R.Ring.value weight) }
    ensures low { (i : ℕ) → i < start → slice_index_or (map R.Ring.value cells.new) i R.Ring.ops.nought ≡ slice_index_or (map R.Ring.value cells.old) i R.Ring.ops.nought }
{
    weigh(weight, row, &mut cells[start..end]);
}

// Sets cells to zero.
fn blank<R: Ring>(cells: &mut [R])
    ensures { (i : ℕ) → i < length cells.old → slice_index_or (map R.Ring.value cells.new) i R.Ring.ops.nought ≡ R.Ring.ops.nought }
{
    let zero = R::zero();
    cells.fill_with(|| zero);
}
