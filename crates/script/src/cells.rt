// Cells as a script writes them: the numbers of their elements, one element after the other.
ghost use Rattle.std.specs.Prelude.{◌≡◌, ◌%◌, length, IfOk, string_bytes, ◌≢◌};
ghost use Rattle.words.specs.Said.{MatchSaid};
ghost use Rattle.script.specs.Cells.{Numbered};
ghost use Rattle.script.specs.Records.{separated};

use crate::element::Element;
use crate::separated::Separated;
use std::alloc::{AllocError, Global};
use words::Unsaid;

// The elements of a list of numbers, in order; none where the list ends amid an element.
pub fn elements<R: Element>(heap: Global, numbers: &[usize]) -> Result<Vec<R>, Unsaid>
    ensures { MatchSaid result (length numbers.now % R.Element.parts ≢ 0) (λ v. Numbered R.Element.parts R.Element.numbered numbers.now v.items) }
{
    let mut elements = Vec::new(heap);
    for chunk in numbers.chunks(R::parts()) {
        elements.push(R::of(chunk).ok_or(Unsaid::Nothing)?)?;
    }
    Ok(elements)
}

// The canonical numbers of cells, with commas between all of them.
pub fn cells_text<R: Element>(heap: Global, cells: &[R]) -> Result<String, AllocError>
    ensures { IfOk result (λ s. string_bytes s ≡ separated R.Element.text cells.now) }
{
    let all = Separated(cells);
    format!(in heap; "{all}")
}

// The canonical numbers of one cell.
pub fn cell_text<R: Element>(heap: Global, cell: R) -> Result<String, AllocError>
    ensures { IfOk result (λ s. string_bytes s ≡ R.Element.text cell) }
{
    format!(in heap; "{cell}")
}
