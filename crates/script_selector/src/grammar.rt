// What the words of a line say of a call of the selector.
// Names are asked one after the other: with a `match` of byte strings, longer names among them, the proof did not close.
ghost use Rattle.std.specs.Prelude.{◌≡◌};
ghost use Rattle.words.specs.Cuts.{texts};
ghost use Rattle.words.specs.Said.{Says};
ghost use Rattle.script_selector.specs.Calls.{said, said_at, asked_by, prefix_says, asked_says, call_says, meaning};

use crate::call::{Asked, Call};
use script::{Kind, ring_kind};
use std::alloc::Global;
use words::{Unsaid, list, name, says};

// The call that the words of a line say, and its ring kind.
#[tactic(auto, unfolding(crate::specs::Calls::meaning))]
pub(crate) fn parse(heap: Global, words: &[&[u8]]) -> Result<(Kind, Call), Unsaid>
    ensures { Says said_at (meaning (texts words.now)) result }
{
    let [name, kind, arguments @ ..] = words else {
        return Err(Unsaid::Nothing);
    };
    let kind = ring_kind(kind).ok_or(Unsaid::Nothing)?;
    Ok((kind, call_of(heap, name, arguments)?))
}

fn call_of(heap: Global, name: &[u8], arguments: &[&[u8]]) -> Result<Call, Unsaid>
    ensures { Says said (call_says name.now (texts arguments.now)) result }
{
    if says(name, "equality_prefix") {
        return prefix_call(heap, arguments);
    }
    let asked = asked_of(heap, arguments)?;
    if says(name, "table") {
        Ok(Call::Table { asked })
    } else if says(name, "evaluate") {
        Ok(Call::Evaluate { asked })
    } else {
        Err(Unsaid::Nothing)
    }
}

fn prefix_call(heap: Global, arguments: &[&[u8]]) -> Result<Call, Unsaid>
    ensures { Says said (prefix_says (texts arguments.now)) result }
{
    let [point, buffer] = arguments else {
        return Err(Unsaid::Nothing);
    };
    Ok(Call::EqualityPrefix {
        point: list(heap, point)?,
        buffer: list(heap, buffer)?,
    })
}

// A slot's name, a point's rows and columns, and cells.
fn asked_of(heap: Global, arguments: &[&[u8]]) -> Result<Asked, Unsaid>
    ensures { Says asked_by (asked_says (texts arguments.now)) result }
{
    let [slot, row, column, cells] = arguments else {
        return Err(Unsaid::Nothing);
    };
    Ok(Asked {
        name: name(heap, slot)?,
        row: list(heap, row)?,
        column: list(heap, column)?,
        cells: list(heap, cells)?,
    })
}
