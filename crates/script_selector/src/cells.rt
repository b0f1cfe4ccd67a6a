// The elements that the numbers of a call give.
ghost use Rattle.std.specs.Prelude.{codes};
ghost use Rattle.words.specs.Said.{MatchSaid};
ghost use Rattle.script.specs.Kits.{kit_of};
ghost use Rattle.script_selector.specs.Calls.{asked_by};
ghost use Rattle.script_selector.specs.Replies.{Placed, Unplaced};

use crate::call::Asked;
use script::{Element, elements};
use std::alloc::Global;
use words::Unsaid;

// The elements of a point, and of the cells that go with it.
#[derive(Drop)]
pub struct Elements<R> {
    pub(crate) row: Vec<R>,
    pub(crate) column: Vec<R>,
    pub(crate) cells: Vec<R>,
}

impl Asked {
    // The elements of the point and the cells; none where a list ends amid an element.
    pub(crate) fn elements<R: Element + PartialEq>(
        &self,
        heap: Global,
    ) -> Result<Elements<R>, Unsaid>
        ensures { MatchSaid result (Unplaced (kit_of R.Element R.PartialEq) (codes "no call") (asked_by self.now)) (λ e. Placed (kit_of R.Element R.PartialEq) (asked_by self.now) e) }
    {
        Ok(Elements {
            row: elements(heap, &self.row)?,
            column: elements(heap, &self.column)?,
            cells: elements(heap, &self.cells)?,
        })
    }
}
