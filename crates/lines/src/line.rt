// Makes the call of a line, and gives the line to print.
ghost use Rattle.std.specs.Prelude.{◌≡◌, ℕ, List, IfOk, string_bytes, codes, OnOk};
ghost use Rattle.std.specs.Option.{option_map};
ghost use Rattle.words.specs.Cuts.{texts};
ghost use Rattle.words.specs.Said.{MatchSaid};
ghost use Rattle.script.specs.Calls.{meaning};
ghost use Rattle.script.specs.Lines.{slots_by, slots_after_line};
ghost use Rattle.script.specs.Slots.{slot};
ghost use Rattle.lines.specs.Lines.{SelectorTells, Tells, Prints};

use script::{Session, answer_text, is_skipped, parse};
use std::alloc::{AllocError, Global};
use words::{Unsaid, words};

// Makes the call of a line, and gives the line to print; none where the line is blank or a comment, which is no error.
// Script's own step is as short: one function for both would take what tells the words as a closure, with its clauses.
pub fn step(
    session: &mut Session,
    heap: Global,
    number: u64,
    line: &[u8],
) -> Result<Option<String>, AllocError>
    ensures printed { IfOk result (λ o. Prints (slot session.old) number line.now (option_map string_bytes o)) }
    ensures slots { OnOk result ((other : List ℕ) → slot session.new other ≡ slots_after_line (slot session.old) line.now other) }
{
    let words = words(heap, line)?;
    if is_skipped(&words) {
        return Ok(None);
    }
    let text = told(session, heap, &words)?;
    let record = format!(in heap; "{number} {text}")?;
    Ok(Some(record))
}

// Makes the call that words say, and tells its answer.
fn told(session: &mut Session, heap: Global, words: &[&[u8]]) -> Result<String, AllocError>
    ensures told { IfOk result (λ s. Tells (slot session.old) (texts words.now) (meaning (texts words.now)) (string_bytes s)) }
    ensures slots { OnOk result ((other : List ℕ) → slot session.new other ≡ slots_by (slot session.old) (meaning (texts words.now)) other) }
{
    match parse(heap, words) {
        Ok(call) => {
            let answer = session.make(heap, call)?;
            answer_text(heap, &answer)
        }
        Err(Unsaid::Nothing) => other_told(session, heap, words),
        Err(Unsaid::NoMemory(fault)) => Err(fault),
    }
}

// What the lines of the other layers tell, or else that the line is no call.
// The selector's crate ends a call so too: a function for the three arms would have a clause longer than they are.
fn other_told(session: &Session, heap: Global, words: &[&[u8]]) -> Result<String, AllocError>
    ensures { IfOk result (λ s. SelectorTells (slot session.now) (texts words.now) (string_bytes s)) }
{
    match other_answer(session, heap, words) {
        Ok(text) => Ok(text),
        Err(Unsaid::Nothing) => format!(in heap; "no call"),
        Err(Unsaid::NoMemory(fault)) => Err(fault),
    }
}

// What the selector's lines tell, or else those of the sources.
fn other_answer(session: &Session, heap: Global, words: &[&[u8]]) -> Result<String, Unsaid>
    ensures { MatchSaid result (SelectorTells (slot session.now) (texts words.now) (codes "no call")) (λ s. SelectorTells (slot session.now) (texts words.now) (string_bytes s)) }
{
    match script_selector::answer(session, heap, words) {
        Err(Unsaid::Nothing) => script_sources::answer(session, heap, words),
        told => told,
    }
}
