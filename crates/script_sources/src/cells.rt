// The calls at a ring kind, and what they tell.
ghost use Rattle.std.specs.Prelude.{◌≡◌, length, Some, IfOk, string_bytes, codes, ◌++◌};
ghost use Rattle.layout.specs.Layout.{shape};
ghost use Rattle.script.specs.Kits.{kit_of};
ghost use Rattle.script.specs.Slots.{slot};
ghost use Rattle.script_sources.specs.Calls.{cells_said};
ghost use Rattle.script_sources.specs.Replies.{committed_reply, vector_reply, buffer_reply, cells_field, ReadReply, PieceReply, Given, Telling, CellsReply, KindReply, Tells};

use crate::call::CellsCall;
use crate::refusal::Refusal;
use ingest::{
    Record, read_columns, read_committed, witness_of_buffer, witness_of_vector, write_piece,
};
use layout::JaggedLayout;
use ring::{Pair, Residue, Word};
use script::{Element, Kind, Session, cells_text, elements};
use std::alloc::{AllocError, Global};

// Makes a call at its ring kind.
// A switch from a kind to a type: a trait for what is done at the type would want a struct and an impl for each.
pub(crate) fn kind_told(
    session: &Session,
    heap: Global,
    kind: Kind,
    call: CellsCall,
) -> Result<String, Refusal>
    ensures { Tells string_bytes (KindReply kind (slot session.now) (cells_said call)) result }
{
    match kind {
        Kind::Residue => cells_told::<Residue>(session, heap, call),
        Kind::Word => cells_told::<Word>(session, heap, call),
        Kind::PairResidue => cells_told::<Pair<Residue>>(session, heap, call),
        Kind::PairWord => cells_told::<Pair<Word>>(session, heap, call),
        Kind::PairPairResidue => cells_told::<Pair<Pair<Residue>>>(session, heap, call),
        Kind::PairPairWord => cells_told::<Pair<Pair<Word>>>(session, heap, call),
    }
}

fn cells_told<R: Element + PartialEq>(
    session: &Session,
    heap: Global,
    call: CellsCall,
) -> Result<String, Refusal>
    ensures { Tells string_bytes (λ told. CellsReply (kit_of R.Element R.PartialEq) told (slot session.now) (cells_said call)) result }
{
    match call {
        CellsCall::ReadColumns {
            name,
            table,
            sources,
            cells,
            words,
            buffer,
        } => {
            let layout = session.held(&name);
            columns_told::<R>(heap, &layout, &table, sources, &cells, &words, &buffer)
        }
        CellsCall::ReadCommitted { name, cells } => {
            committed_told::<R>(heap, &session.held(&name), &cells)
        }
        CellsCall::WitnessOfVector { name, cells } => {
            vector_told::<R>(heap, &session.held(&name), &cells)
        }
        CellsCall::WitnessOfBuffer { name, cells } => {
            buffer_told::<R>(heap, &session.held(&name), &cells)
        }
        CellsCall::WritePiece {
            table,
            column,
            cells,
            words,
            buffer,
        } => piece_told::<R>(heap, &table, column, &cells, &words, &buffer),
    }
}

// The words of a block.
fn block_words(heap: Global, numbers: &[usize]) -> Result<Vec<u64>, AllocError>
    ensures { IfOk result (λ v. v.items ≡ numbers.now) }
{
    numbers.iter().map(|number| *number as u64).collect(heap)
}

fn columns_told<R: Element + PartialEq>(
    heap: Global,
    layout: &JaggedLayout,
    table: &[Record],
    sources: usize,
    cells: &[usize],
    words: &[usize],
    buffer: &[usize],
) -> Result<String, Refusal>
    ensures { Tells string_bytes (λ told. Given (kit_of R.Element R.PartialEq) told cells.now (λ xs. Given (kit_of R.Element R.PartialEq) told buffer.now (λ bs. Telling (kit_of R.Element R.PartialEq) told (ReadReply (kit_of R.Element R.PartialEq) (shape layout.now) table.now sources xs words.now bs)))) result }
{
    let block = elements::<R>(heap, cells)?;
    let mut room = elements::<R>(heap, buffer)?;
    let bits = block_words(heap, words)?;
    let report = read_columns(layout, table, sources, &block, &bits, &mut room)?;
    let all = cells_text(heap, &room)?;
    Ok(format!(in heap; "ok {report} cells={all}")?)
}

fn committed_told<R: Element + PartialEq>(
    heap: Global,
    layout: &JaggedLayout,
    cells: &[usize],
) -> Result<String, Refusal>
    ensures { Tells string_bytes (λ told. Given (kit_of R.Element R.PartialEq) told cells.now (λ xs. told ≡ Some (committed_reply (shape layout.now) (length xs)))) result }
{
    let block = elements::<R>(heap, cells)?;
    let report = read_committed(layout, &block)?;
    Ok(format!(in heap; "ok {report}")?)
}

// As for a buffer but for the call: as a closure, the call's contract would be said once more, and at more length than these three lines.
fn vector_told<R: Element + PartialEq>(
    heap: Global,
    layout: &JaggedLayout,
    cells: &[usize],
) -> Result<String, Refusal>
    ensures { Tells string_bytes (λ told. Given (kit_of R.Element R.PartialEq) told cells.now (λ xs. told ≡ Some (vector_reply (kit_of R.Element R.PartialEq) (shape layout.now) xs))) result }
{
    let block = elements::<R>(heap, cells)?;
    let witness = witness_of_vector(layout, &block)?;
    Ok(witness_text(heap, witness)?)
}

fn buffer_told<R: Element + PartialEq>(
    heap: Global,
    layout: &JaggedLayout,
    cells: &[usize],
) -> Result<String, Refusal>
    ensures { Tells string_bytes (λ told. Given (kit_of R.Element R.PartialEq) told cells.now (λ xs. told ≡ Some (buffer_reply (kit_of R.Element R.PartialEq) (shape layout.now) xs))) result }
{
    let block = elements::<R>(heap, cells)?;
    let witness = witness_of_buffer(layout, &block)?;
    Ok(witness_text(heap, witness)?)
}

// What is told of a witness: its cells.
fn witness_text<R: Element + PartialEq>(heap: Global, cells: &[R]) -> Result<String, AllocError>
    ensures { IfOk result (λ s. string_bytes s ≡ codes "ok" ++ cells_field (kit_of R.Element R.PartialEq) cells.now) }
{
    let all = cells_text(heap, cells)?;
    format!(in heap; "ok cells={all}")
}

// As for columns but for the call and the report: as a closure, the call's contract would be said once more.
fn piece_told<R: Element + PartialEq>(
    heap: Global,
    table: &[Record],
    column: usize,
    cells: &[usize],
    words: &[usize],
    buffer: &[usize],
) -> Result<String, Refusal>
    ensures { Tells string_bytes (λ told. Given (kit_of R.Element R.PartialEq) told cells.now (λ xs. Given (kit_of R.Element R.PartialEq) told buffer.now (λ bs. Telling (kit_of R.Element R.PartialEq) told (PieceReply (kit_of R.Element R.PartialEq) table.now column xs words.now bs)))) result }
{
    let block = elements::<R>(heap, cells)?;
    let mut room = elements::<R>(heap, buffer)?;
    let bits = block_words(heap, words)?;
    let rows = write_piece(table, column, &block, &bits, &mut room)?;
    let all = cells_text(heap, &room)?;
    Ok(format!(in heap; "ok height={rows} cells={all}")?)
}
