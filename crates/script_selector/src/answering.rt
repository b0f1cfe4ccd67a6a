// Makes the calls of the selector's lines.
ghost use Rattle.std.specs.Prelude.{◌≡◌, Some, None, IfOk, string_bytes, codes};
ghost use Rattle.layout.specs.Layout.{shape};
ghost use Rattle.words.specs.Cuts.{texts};
ghost use Rattle.words.specs.Said.{MatchSaid};
ghost use Rattle.script.specs.Kits.{kit_of};
ghost use Rattle.script.specs.Slots.{slot};
ghost use Rattle.script_selector.specs.Calls.{said, meaning};
ghost use Rattle.script_selector.specs.Replies.{Reply, KindReply, Answered};

use crate::call::Call;
use crate::cells::Elements;
use crate::grammar::parse;
use crate::reply::{evaluated, tabled, weights};
use ring::{Pair, Residue, Word};
use script::{Element, Kind, Session, elements};
use selector::JaggedPoint;
use std::alloc::{AllocError, Global};
use words::Unsaid;

// What is told of the call that words say, after the line's number.
pub fn answer(session: &Session, heap: Global, words: &[&[u8]]) -> Result<String, Unsaid>
    ensures { MatchSaid result (Answered (slot session.now) (meaning (texts words.now)) None) (λ s. Answered (slot session.now) (meaning (texts words.now)) (Some (string_bytes s))) }
{
    let (kind, call) = parse(heap, words)?;
    Ok(kind_answer(session, heap, kind, call)?)
}

// Makes the call at its ring kind.
// The crates below and above have such a match too: a trait for what is done at a kind's type would want a struct and an impl for each.
fn kind_answer(
    session: &Session,
    heap: Global,
    kind: Kind,
    call: Call,
) -> Result<String, AllocError>
    ensures { IfOk result (λ s. KindReply (slot session.now) kind (said call) (string_bytes s)) }
{
    match kind {
        Kind::Residue => element_answer::<Residue>(session, heap, call),
        Kind::Word => element_answer::<Word>(session, heap, call),
        Kind::PairResidue => element_answer::<Pair<Residue>>(session, heap, call),
        Kind::PairWord => element_answer::<Pair<Word>>(session, heap, call),
        Kind::PairPairResidue => element_answer::<Pair<Pair<Residue>>>(session, heap, call),
        Kind::PairPairWord => element_answer::<Pair<Pair<Word>>>(session, heap, call),
    }
}

// A list that ends amid an element makes the line no call.
fn element_answer<R: Element + PartialEq>(
    session: &Session,
    heap: Global,
    call: Call,
) -> Result<String, AllocError>
    ensures { IfOk result (λ s. Reply (kit_of R.Element R.PartialEq) (string_bytes s) (slot session.now) (said call)) }
{
    match told::<R>(session, heap, call) {
        Ok(text) => Ok(text),
        Err(Unsaid::Nothing) => format!(in heap; "no call"),
        Err(Unsaid::NoMemory(fault)) => Err(fault),
    }
}

fn told<R: Element + PartialEq>(
    session: &Session,
    heap: Global,
    call: Call,
) -> Result<String, Unsaid>
    ensures { MatchSaid result (Reply (kit_of R.Element R.PartialEq) (codes "no call") (slot session.now) (said call)) (λ s. Reply (kit_of R.Element R.PartialEq) (string_bytes s) (slot session.now) (said call)) }
{
    match call {
        Call::EqualityPrefix { point, buffer } => {
            let point = elements::<R>(heap, &point)?;
            let mut buffer = elements::<R>(heap, &buffer)?;
            Ok(weights(heap, &point, &mut buffer)?)
        }
        Call::Table { asked } => {
            let layout = session.held(asked.name.as_str());
            let Elements {
                row,
                column,
                mut cells,
            } = asked.elements::<R>(heap)?;
            Ok(tabled(heap, &layout, &JaggedPoint::new(&row, &column), &mut cells)?)
        }
        Call::Evaluate { asked } => {
            let layout = session.held(asked.name.as_str());
            let Elements { row, column, cells } = asked.elements::<R>(heap)?;
            Ok(evaluated(heap, &layout, &JaggedPoint::new(&row, &column), &cells)?)
        }
    }
}
