// The answer to a line.
ghost use Rattle.std.specs.Prelude.{◌≡◌, Some, None, IfOk, string_bytes};
ghost use Rattle.words.specs.Cuts.{texts};
ghost use Rattle.words.specs.Said.{MatchSaid};
ghost use Rattle.script.specs.Slots.{slot};
ghost use Rattle.script_sources.specs.Calls.{said, meaning};
ghost use Rattle.script_sources.specs.Replies.{Reply, Answered, Tells};
ghost use Rattle.script_sources.specs.Texts.{ingest_fault};

use crate::call::Call;
use crate::cells::kind_told;
use crate::grammar::parse;
use crate::refusal::Refusal;
use ingest::{JaggedIngestError, check_order, height, heights, pass, piece_height};
use script::{Session, joined};
use std::alloc::{AllocError, Global};
use words::Unsaid;

// Makes the call that the words of a line say, and gives the text that is told.
pub fn answer(session: &Session, heap: Global, words: &[&[u8]]) -> Result<String, Unsaid>
    ensures { MatchSaid result (Answered (slot session.now) (meaning (texts words.now)) None) (λ s. Answered (slot session.now) (meaning (texts words.now)) (Some (string_bytes s))) }
{
    match told(session, heap, parse(heap, words)?) {
        Ok(text) => Ok(text),
        Err(Refusal::Fault(fault)) => Ok(fault_text(heap, &fault)?),
        Err(Refusal::Unsaid(unsaid)) => Err(unsaid),
    }
}

// Makes a call, and tells what it answers.
fn told(session: &Session, heap: Global, call: Call) -> Result<String, Refusal>
    ensures { Tells string_bytes (Reply (slot session.now) (said call)) result }
{
    match call {
        Call::CheckOrder { table, sources } => {
            check_order(&table, sources)?;
            Ok(format!(in heap; "ok")?)
        }
        Call::Height {
            table,
            sources,
            column,
        } => {
            let rows = height(&table, sources, column)?;
            Ok(format!(in heap; "ok height={rows}")?)
        }
        Call::Pass {
            table,
            sources,
            column,
        } => {
            let found = pass(&table, sources, column)?;
            Ok(format!(in heap; "ok pass={found}")?)
        }
        Call::Heights {
            table,
            sources,
            mut buffer,
        } => {
            let written = heights(&table, sources, &mut buffer)?;
            let all = joined(heap, &buffer)?;
            Ok(format!(in heap; "ok written={written} heights={all}")?)
        }
        Call::PieceHeight { table, column } => {
            let rows = piece_height(&table, column)?;
            Ok(format!(in heap; "ok height={rows}")?)
        }
        Call::Cells { kind, call } => kind_told(session, heap, kind, call),
    }
}

// A fault's number, then its name and its fields, as in the crates beside: a trait for it would want an impl for each of four.
fn fault_text(heap: Global, fault: &JaggedIngestError) -> Result<String, AllocError>
    ensures { IfOk result (λ s. string_bytes s ≡ ingest_fault fault.now) }
{
    let number = fault.number();
    format!(in heap; "fault {number} {fault}")
}
