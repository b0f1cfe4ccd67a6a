// The selector's value at a dense point.
ghost use Rattle.std.specs.Prelude.{◌≡◌, ◌+◌, ◌-◌, ◌^◌, ◌<◌, ◌≤◌, map, length, OnOk};
ghost use Rattle.ring.specs.Checks.{verdict, on_ok};
ghost use Rattle.layout.specs.Layout.{shape};
ghost use Rattle.selector.specs.Faults.{evaluate_checks, dense_checks};
ghost use Rattle.selector.specs.Layers.{leading_to, column_sum};
ghost use Rattle.selector.specs.Selector.{selector, Extends};

use crate::automaton::{accepting, coordinate_at, layer_of, step};
use crate::error::JaggedError;
use crate::fitted::FittedPoint;
use crate::point::JaggedPoint;
use crate::weights::{bit_at, weight_at};
use layout::JaggedLayout;
use ring::Ring;

// The sum, over the columns y and their rows r, of eq(row, r) · eq(column, y) · eq(dense, start(y) + r).
pub fn evaluate<R: Ring>(
    layout: &JaggedLayout,
    point: &JaggedPoint<'_, R>,
    dense: &[R],
) -> Result<R, JaggedError>
    ensures answer { on_ok R.Ring.value result ≡ verdict (evaluate_checks (shape layout.now) (length point.now.row.now) (length point.now.column.now) (length dense.now)) (selector R.Ring.ops (shape layout.now) (map R.Ring.value point.now.row.now) (map R.Ring.value point.now.column.now) (map R.Ring.value dense.now)) }
    ensures extends { OnOk result (Extends R.Ring.ops (shape layout.now) (map R.Ring.value point.now.row.now) (map R.Ring.value point.now.column.now) (map R.Ring.value dense.now)) }
{
    let fitted = FittedPoint::new(layout, point)?;
    check_dense(layout, dense.len())?;
    Ok(fitted.sum_columns(dense))
}

// That the dense point has as many coordinates as the layout has dense variables.
fn check_dense(layout: &JaggedLayout, actual: usize) -> Result<(), JaggedError>
    ensures answer { result ≡ verdict (dense_checks (shape layout.now) actual) tt }
    ensures width { OnOk result (actual ≡ (shape layout.now).dense) }
{
    let expected = layout.dense_variables();
    if actual != expected {
        return Err(JaggedError::DensePointWidthMismatch { expected, actual });
    }
    Ok(())
}

impl<R: Ring> FittedPoint<'_, R> {
    // Each column's weight by what its rows add up to.
    fn sum_columns(&self, dense: &[R]) -> R
        requires dense { length dense.now ≡ (shape self.now.layout.now).dense }
        ensures sum { R.Ring.value result ≡ selector R.Ring.ops (shape self.now.layout.now) (map R.Ring.value self.now.row.now) (map R.Ring.value self.now.column.now) (map R.Ring.value dense.now) }
        ensures extends { Extends R.Ring.ops (shape self.now.layout.now) (map R.Ring.value self.now.row.now) (map R.Ring.value self.now.column.now) (map R.Ring.value dense.now) }
    {
        let boundaries = self.layout.cumulative_heights();
        let above = self.row.len().saturating_sub(dense.len() + 1);
        let leading = leading_of(&self.row[..above]);
        let mut sum = R::zero();
        for (y, (start, end)) in boundaries.iter().zip(&boundaries[1..]).enumerate() {
            let rows = column_sum(self.row, dense, leading, *start, *end);
            sum = sum.plus(weight_at(self.column, y).times(rows));
        }
        sum
    }
}

// Start and end are told by the boundaries one by one: a struct of them would be made for this call and that of the table.
// What the rows of a column from start to end add up to, each by its row weight and the dense weight of its place.
fn column_sum<R: Ring>(row: &[R], dense: &[R], leading: R, start: usize, end: usize) -> R
    requires few { length dense.now < 64 }
    requires ordered { start ≤ end }
    requires inside { end ≤ 2 ^ length dense.now }
    requires tall { end - start ≤ 2 ^ length row.now }
    requires leading { R.Ring.value leading ≡ leading_to R.Ring.ops (map R.Ring.value row.now) (length row.now - (length dense.now + 1)) }
    ensures { R.Ring.value result ≡ column_sum R.Ring.ops (map R.Ring.value row.now) (map R.Ring.value dense.now) start end }
{
    let mut states = accepting(leading);
    // a layer reads two points from their ends, with zeros above them, and bits of two numbers: its number serves all four as no iterator does
    // the layer above the dense coordinates reads the end's highest bit, which is set where a column ends at the capacity
    for layer in (0..dense.len() + 1).rev() {
        let products = layer_of(coordinate_at(row, layer), coordinate_at(dense, layer));
        states = step(&products, bit_at(start, layer), bit_at(end, layer), &states);
    }
    states.plain.level
}

// The product of one minus each coordinate: what is left of the row weights above the layers.
fn leading_of<R: Ring>(row: &[R]) -> R
    ensures { R.Ring.value result ≡ leading_to R.Ring.ops (map R.Ring.value row.now) (length row.now) }
{
    let mut product = R::one();
    for x in row {
        product = product.times(R::one().minus(*x));
    }
    product
}
