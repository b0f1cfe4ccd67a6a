// Makes the calls on cells, at any ring kind.
ghost use Rattle.std.specs.Prelude.{◌≡◌, IfOk, string_bytes};
ghost use Rattle.layout.specs.Layout.{shape};
ghost use Rattle.script.specs.Kits.{kit_of};
ghost use Rattle.script_selector.specs.Replies.{Weights, Tabled, Evaluated};

use crate::fault::fault_text;
use layout::JaggedLayout;
use script::{Element, cells_text};
use selector::{JaggedPoint, equality_prefix, evaluate, table};
use std::alloc::{AllocError, Global};

// Writes the weights of a point into a buffer, and tells both.
pub(crate) fn weights<R: Element + PartialEq>(
    heap: Global,
    point: &[R],
    buffer: &mut [R],
) -> Result<String, AllocError>
    ensures { IfOk result (λ s. Weights (kit_of R.Element R.PartialEq) (string_bytes s) point.now buffer.old) }
{
    let written = equality_prefix(point, buffer);
    let cells = cells_text(heap, buffer)?;
    format!(in heap; "ok written={written} cells={cells}")
}

// Writes the selector's table into a buffer, and tells it.
// Two calls tell a fault: an error of this crate's own, with its two conversions, would be longer than the two arms.
pub(crate) fn tabled<'a, R: Element + PartialEq>(
    heap: Global,
    layout: &JaggedLayout,
    point: &JaggedPoint<'a, R>,
    buffer: &mut [R],
) -> Result<String, AllocError>
    ensures { IfOk result (λ s. Tabled (kit_of R.Element R.PartialEq) (string_bytes s) (shape layout.now) point.now.row.now point.now.column.now buffer.old) }
{
    match table(layout, point, buffer) {
        Ok(()) => {
            let cells = cells_text(heap, buffer)?;
            format!(in heap; "ok cells={cells}")
        }
        Err(fault) => fault_text(heap, &fault),
    }
}

// Tells the selector's value.
pub(crate) fn evaluated<'a, R: Element + PartialEq>(
    heap: Global,
    layout: &JaggedLayout,
    point: &JaggedPoint<'a, R>,
    dense: &[R],
) -> Result<String, AllocError>
    ensures { IfOk result (λ s. Evaluated (kit_of R.Element R.PartialEq) (string_bytes s) (shape layout.now) point.now.row.now point.now.column.now dense.now) }
{
    match evaluate(layout, point, dense) {
        Ok(element) => format!(in heap; "ok element={element}"),
        Err(fault) => fault_text(heap, &fault),
    }
}
