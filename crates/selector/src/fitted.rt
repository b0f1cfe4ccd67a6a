// A layout with a point of its table.
ghost use Rattle.std.specs.Prelude.{◌≡◌, ◌^◌, ◌≤◌, length, IfOk};
ghost use Rattle.ring.specs.Checks.{verdict, on_ok};
ghost use Rattle.layout.specs.Layout.{shape};
ghost use Rattle.layout.specs.Shape.{columns};
ghost use Rattle.selector.specs.Faults.{point_checks};

use crate::error::JaggedError;
use crate::point::JaggedPoint;
use layout::JaggedLayout;

// The point has as many coordinates as the layout has row and column variables.
#[derive(Drop)]
pub(crate) struct FittedPoint<'a, R> {
    pub(crate) layout: &'a JaggedLayout,
    pub(crate) row: &'a [R],
    pub(crate) column: &'a [R],
    ghost names_rows: { length row.now ≡ (shape layout.now).rows },
    ghost names_columns: { 2 ^ length column.now ≡ columns (shape layout.now) },
    ghost narrow: { length column.now ≤ 64 },
}

impl<'a, R> FittedPoint<'a, R> {
    // The layout and the point, where they fit.
    pub(crate) fn new(
        layout: &'a JaggedLayout,
        point: &JaggedPoint<'a, R>,
    ) -> Result<FittedPoint<'a, R>, JaggedError>
        ensures answer { on_ok (λ _. tt {0}) result ≡ verdict (point_checks (shape layout.now) (length point.now.row.now) (length point.now.column.now)) (tt {0}) }
        ensures layout { IfOk result (λ f. f.layout.now ≡ layout.now) }
        ensures row { IfOk result (λ f. f.row.now ≡ point.now.row.now) }
        ensures column { IfOk result (λ f. f.column.now ≡ point.now.column.now) }
    {
        let row = point.row();
        let expected = layout.row_variables();
        if row.len() != expected {
            return Err(JaggedError::RowPointWidthMismatch {
                expected,
                actual: row.len(),
            });
        }
        let column = point.column();
        let expected = layout.column_variables();
        if column.len() != expected {
            return Err(JaggedError::ColumnPointWidthMismatch {
                expected,
                actual: column.len(),
            });
        }
        Ok(FittedPoint {
            layout,
            row,
            column,
        })
    }
}
