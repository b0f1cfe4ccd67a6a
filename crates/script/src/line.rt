// One line of a script.
ghost use Rattle.std.specs.Prelude.{◌≡◌, ℕ, List, IfOk, string_bytes, OnOk};
ghost use Rattle.std.specs.Option.{option_map};
ghost use Rattle.script.specs.Calls.{meaning};
ghost use Rattle.words.specs.Cuts.{texts};
ghost use Rattle.script.specs.Lines.{is_skipped, Recorded, Prints, slots_by, slots_after_line};
ghost use Rattle.script.specs.Slots.{slot};

use crate::answer::Answer;
use crate::grammar::parse;
use crate::session::Session;
use crate::text::record;
use std::alloc::{AllocError, Global};
use words::{Unsaid, words};

// Makes the call of a line, and gives the line to print; none where the line is blank or a comment, which is no error.
pub fn step(
    session: &mut Session,
    heap: Global,
    number: u64,
    line: &[u8],
) -> Result<Option<String>, AllocError>
    ensures printed { IfOk result (λ o. Prints (slot session.old) number line.now (option_map string_bytes o)) }
    ensures slots { OnOk result ((other : List ℕ) → slot session.new other ≡ slots_after_line (slot session.old) line.now other) }
{
    let words = words(heap, line)?;
    if is_skipped(&words) {
        return Ok(None);
    }
    Ok(Some(answered(session, heap, number, &words)?))
}

// Whether the words of a line are none, or begin a comment.
pub fn is_skipped(words: &[&[u8]]) -> bool
    ensures { result ≡ is_skipped (texts words.now) }
{
    match words {
        [] => true,
        [first, ..] => first.first() == Some(&b'#'),
    }
}

// Makes the call that words say, and gives its record.
fn answered(
    session: &mut Session,
    heap: Global,
    number: u64,
    words: &[&[u8]],
) -> Result<String, AllocError>
    ensures printed { IfOk result (λ s. Recorded (slot session.old) number (meaning (texts words.now)) (string_bytes s)) }
    ensures slots { OnOk result ((other : List ℕ) → slot session.new other ≡ slots_by (slot session.old) (meaning (texts words.now)) other) }
{
    // The crates above end a call by such arms too: a function for them would have a clause longer than they are.
    let answer = match parse(heap, words) {
        Ok(call) => session.make(heap, call)?,
        Err(Unsaid::Nothing) => Answer::NoCall,
        Err(Unsaid::NoMemory(fault)) => return Err(fault),
    };
    record(heap, number, &answer)
}
