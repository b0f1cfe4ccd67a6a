// What the words of a line say of a call on tables.
// Names are asked one after the other: with a `match` of byte strings, longer names among them, the proof did not close.
ghost use Rattle.std.specs.Prelude.{vec_items, string_bytes};
ghost use Rattle.words.specs.Cuts.{texts};
ghost use Rattle.words.specs.Said.{Says};
ghost use Rattle.script_sources.specs.Calls.{said, cells_said, order_says, column_says, slot_says, height_says, pass_says, heights_says, piece_height_says, read_columns_says, read_committed_says, witness_of_vector_says, witness_of_buffer_says, write_piece_says, table_says, cells_says, kind_says, meaning};
ghost use Rattle.script_sources.specs.Tables.{headed};

use crate::call::{Call, CellsCall};
use crate::table::table;
use ingest::Record;
use script::ring_kind;
use std::alloc::Global;
use words::{Unsaid, list, name, number, says};

// The call that the words of a line say, if they say one.
#[tactic(auto, unfolding(crate::specs::Calls::meaning))]
pub(crate) fn parse(heap: Global, words: &[&[u8]]) -> Result<Call, Unsaid>
    ensures { Says said (meaning (texts words.now)) result }
{
    let [name, arguments @ ..] = words else {
        return Err(Unsaid::Nothing);
    };
    match table_call(heap, name, arguments) {
        Err(Unsaid::Nothing) => kind_call(heap, name, arguments),
        told => told,
    }
}

fn table_call(heap: Global, name: &[u8], arguments: &[&[u8]]) -> Result<Call, Unsaid>
    ensures { Says said (table_says name.now (texts arguments.now)) result }
{
    if says(name, "check_order") {
        order_call(heap, arguments)
    } else if says(name, "height") {
        height_call(heap, arguments)
    } else if says(name, "pass") {
        pass_call(heap, arguments)
    } else if says(name, "heights") {
        heights_call(heap, arguments)
    } else if says(name, "piece_height") {
        piece_height_call(heap, arguments)
    } else {
        Err(Unsaid::Nothing)
    }
}

// A call at a ring kind, which stands first.
fn kind_call(heap: Global, name: &[u8], arguments: &[&[u8]]) -> Result<Call, Unsaid>
    ensures { Says said (headed (kind_says name.now) (texts arguments.now)) result }
{
    let [kind, arguments @ ..] = arguments else {
        return Err(Unsaid::Nothing);
    };
    Ok(Call::Cells {
        kind: ring_kind(kind).ok_or(Unsaid::Nothing)?,
        call: cells_call(heap, name, arguments)?,
    })
}

fn cells_call(heap: Global, name: &[u8], arguments: &[&[u8]]) -> Result<CellsCall, Unsaid>
    ensures { Says cells_said (cells_says name.now (texts arguments.now)) result }
{
    if says(name, "read_columns") {
        read_columns_call(heap, arguments)
    } else if says(name, "read_committed") {
        read_committed_call(heap, arguments)
    } else if says(name, "witness_of_vector") {
        witness_of_vector_call(heap, arguments)
    } else if says(name, "witness_of_buffer") {
        witness_of_buffer_call(heap, arguments)
    } else if says(name, "write_piece") {
        write_piece_call(heap, arguments)
    } else {
        Err(Unsaid::Nothing)
    }
}

fn order_call(heap: Global, arguments: &[&[u8]]) -> Result<Call, Unsaid>
    ensures { Says said (order_says (texts arguments.now)) result }
{
    let [records, sources] = arguments else {
        return Err(Unsaid::Nothing);
    };
    Ok(Call::CheckOrder {
        table: table(heap, records)?,
        sources: number(sources).ok_or(Unsaid::Nothing)?,
    })
}

// A table, its sources and a column.
fn column_of_table(heap: Global, arguments: &[&[u8]]) -> Result<(Vec<Record>, usize, usize), Unsaid>
    ensures { Says (λ p. (vec_items p.0, p.1, p.2)) (column_says (texts arguments.now)) result }
{
    let [records, sources, column] = arguments else {
        return Err(Unsaid::Nothing);
    };
    Ok((
        table(heap, records)?,
        number(sources).ok_or(Unsaid::Nothing)?,
        number(column).ok_or(Unsaid::Nothing)?,
    ))
}

fn height_call(heap: Global, arguments: &[&[u8]]) -> Result<Call, Unsaid>
    ensures { Says said (height_says (texts arguments.now)) result }
{
    let (table, sources, column) = column_of_table(heap, arguments)?;
    Ok(Call::Height {
        table,
        sources,
        column,
    })
}

fn pass_call(heap: Global, arguments: &[&[u8]]) -> Result<Call, Unsaid>
    ensures { Says said (pass_says (texts arguments.now)) result }
{
    let (table, sources, column) = column_of_table(heap, arguments)?;
    Ok(Call::Pass {
        table,
        sources,
        column,
    })
}

fn heights_call(heap: Global, arguments: &[&[u8]]) -> Result<Call, Unsaid>
    ensures { Says said (heights_says (texts arguments.now)) result }
{
    let [records, sources, buffer] = arguments else {
        return Err(Unsaid::Nothing);
    };
    Ok(Call::Heights {
        table: table(heap, records)?,
        sources: number(sources).ok_or(Unsaid::Nothing)?,
        buffer: list(heap, buffer)?,
    })
}

fn piece_height_call(heap: Global, arguments: &[&[u8]]) -> Result<Call, Unsaid>
    ensures { Says said (piece_height_says (texts arguments.now)) result }
{
    let [records, column] = arguments else {
        return Err(Unsaid::Nothing);
    };
    Ok(Call::PieceHeight {
        table: table(heap, records)?,
        column: number(column).ok_or(Unsaid::Nothing)?,
    })
}

fn read_columns_call(heap: Global, arguments: &[&[u8]]) -> Result<CellsCall, Unsaid>
    ensures { Says cells_said (read_columns_says (texts arguments.now)) result }
{
    let [slot, records, sources, cells, words, buffer] = arguments else {
        return Err(Unsaid::Nothing);
    };
    Ok(CellsCall::ReadColumns {
        name: name(heap, slot)?,
        table: table(heap, records)?,
        sources: number(sources).ok_or(Unsaid::Nothing)?,
        cells: list(heap, cells)?,
        words: list(heap, words)?,
        buffer: list(heap, buffer)?,
    })
}

// A slot's name, and cells.
fn slot_and_cells(heap: Global, arguments: &[&[u8]]) -> Result<(String, Vec<usize>), Unsaid>
    ensures { Says (λ p. (string_bytes p.0, vec_items p.1)) (slot_says (texts arguments.now)) result }
{
    let [slot, cells] = arguments else {
        return Err(Unsaid::Nothing);
    };
    Ok((name(heap, slot)?, list(heap, cells)?))
}

fn read_committed_call(heap: Global, arguments: &[&[u8]]) -> Result<CellsCall, Unsaid>
    ensures { Says cells_said (read_committed_says (texts arguments.now)) result }
{
    let (name, cells) = slot_and_cells(heap, arguments)?;
    Ok(CellsCall::ReadCommitted { name, cells })
}

fn witness_of_vector_call(heap: Global, arguments: &[&[u8]]) -> Result<CellsCall, Unsaid>
    ensures { Says cells_said (witness_of_vector_says (texts arguments.now)) result }
{
    let (name, cells) = slot_and_cells(heap, arguments)?;
    Ok(CellsCall::WitnessOfVector { name, cells })
}

fn witness_of_buffer_call(heap: Global, arguments: &[&[u8]]) -> Result<CellsCall, Unsaid>
    ensures { Says cells_said (witness_of_buffer_says (texts arguments.now)) result }
{
    let (name, cells) = slot_and_cells(heap, arguments)?;
    Ok(CellsCall::WitnessOfBuffer { name, cells })
}

fn write_piece_call(heap: Global, arguments: &[&[u8]]) -> Result<CellsCall, Unsaid>
    ensures { Says cells_said (write_piece_says (texts arguments.now)) result }
{
    let [records, column, cells, words, buffer] = arguments else {
        return Err(Unsaid::Nothing);
    };
    Ok(CellsCall::WritePiece {
        table: table(heap, records)?,
        column: number(column).ok_or(Unsaid::Nothing)?,
        cells: list(heap, cells)?,
        words: list(heap, words)?,
        buffer: list(heap, buffer)?,
    })
}
