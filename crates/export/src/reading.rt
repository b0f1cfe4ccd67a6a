// Tables of records: their check, and their reading.
ghost use Rattle.std.specs.Prelude.{◌≡◌, length};
ghost use Rattle.export.specs.Calls.{read_answer};
ghost use Rattle.export.specs.Entries.{table_of};
ghost use Rattle.export.specs.Refusals.{told};

use crate::entry::{Entry, Records};
use crate::layouts::layout_of;
use crate::refusal::{Refusal, told};
use ingest::{check_order, read_columns};
use ring::{Residue, Ring, Word};

// Checks the table against each of these numbers of sources, and writes the fault's number, or 0.
#[unsafe(no_mangle)]
pub extern "C" fn mossplane_check(entries: &[Entry], sources: &[usize], faults: &mut [u8]) {
    let mut records = Records::none();
    records.fill(entries);
    for (fault, count) in faults.iter_mut().zip(sources) {
        *fault = told(check_order(records.as_slice(), *count).map_err(Refusal::Ingest));
    }
}

// Reads the columns of a table, over and over as often as said.
fn read_rounds<R: Ring>(
    row_variables: usize,
    heights: &[usize],
    entries: &[Entry],
    cells: &[R],
    words: &[u64],
    rounds: usize,
    buffer: &mut [R],
) -> Result<(), Refusal>
    ensures { result ≡ read_answer row_variables heights.now (table_of entries.now) (length cells.now) (length words.now) rounds (length buffer.old) }
{
    let layout = layout_of(row_variables, heights)?;
    let mut records = Records::none();
    records.fill(entries);
    let table = records.as_slice();
    let mut outcome = Ok(());
    // Each round reads anew, also after a refusal: the rounds are there to be timed.
    for round in 0..rounds {
        let read = read_columns(&layout, table, heights.len(), cells, words, buffer);
        outcome = read.map(|_| ());
    }
    outcome?;
    Ok(())
}

// The C interface has no type parameters: a name for words, and one for residues.
#[unsafe(no_mangle)]
pub extern "C" fn mossplane_read_words(
    row_variables: usize,
    heights: &[usize],
    entries: &[Entry],
    cells: &[Word],
    words: &[u64],
    rounds: usize,
    buffer: &mut [Word],
) -> u8
    ensures { result ≡ told (read_answer row_variables heights.now (table_of entries.now) (length cells.now) (length words.now) rounds (length buffer.old)) }
{
    told(read_rounds(
        row_variables,
        heights,
        entries,
        cells,
        words,
        rounds,
        buffer,
    ))
}

#[unsafe(no_mangle)]
pub extern "C" fn mossplane_read_residues(
    row_variables: usize,
    heights: &[usize],
    entries: &[Entry],
    cells: &[Residue],
    words: &[u64],
    rounds: usize,
    buffer: &mut [Residue],
) -> u8
    ensures { result ≡ told (read_answer row_variables heights.now (table_of entries.now) (length cells.now) (length words.now) rounds (length buffer.old)) }
{
    told(read_rounds(
        row_variables,
        heights,
        entries,
        cells,
        words,
        rounds,
        buffer,
    ))
}
