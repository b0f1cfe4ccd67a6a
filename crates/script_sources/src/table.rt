// The records and tables that words say.
ghost use Rattle.std.specs.Prelude.{◌≡◌, vec_items};
ghost use Rattle.words.specs.Cuts.{texts};
ghost use Rattle.words.specs.Said.{Says};
ghost use Rattle.script_sources.specs.Tables.{dense_says, interleaved_says, bits_says, chunked_says, fields_say, headed, record_of, run_of, table_of};

use ingest::Record;
use std::alloc::Global;
use words::{Item, Mark, Unsaid, list_of, number, pieces, says, starred};

// The most records that a table of a script has.
const MAX_TABLE: usize = 65536;

// Items that are records.
struct Records;

impl Item for Records {
    type Value = Record;

    ghost said = { run_of };

    fn run(heap: Global, item: &[u8]) -> Result<(Record, usize), Unsaid> {
        let (word, times) = starred(item).ok_or(Unsaid::Nothing)?;
        Ok((record(heap, word)?, times))
    }
}

fn dense(fields: &[&[u8]]) -> Option<Record>
    ensures { result ≡ dense_says (texts fields.now) }
{
    let [place, height] = fields else {
        return None;
    };
    Some(Record::Dense {
        place: number(place)?,
        height: number(height)?,
    })
}

fn interleaved(fields: &[&[u8]]) -> Option<Record>
    ensures { result ≡ interleaved_says (texts fields.now) }
{
    let [place, length, first, stride, height] = fields else {
        return None;
    };
    Some(Record::Interleaved {
        place: number(place)?,
        length: number(length)?,
        first: number(first)?,
        stride: number(stride)?,
        height: number(height)?,
    })
}

fn bits(fields: &[&[u8]]) -> Option<Record>
    ensures { result ≡ bits_says (texts fields.now) }
{
    let [place, words, height] = fields else {
        return None;
    };
    Some(Record::Bits {
        place: number(place)?,
        words: number(words)?,
        height: number(height)?,
    })
}

fn chunked(fields: &[&[u8]]) -> Option<Record>
    ensures { result ≡ chunked_says (texts fields.now) }
{
    let [from, count] = fields else {
        return None;
    };
    Some(Record::Chunked {
        from: number(from)?,
        count: number(count)?,
    })
}

// The record of parts, the first of which is its kind, and the rest its numbers.
fn record_by(parts: &[&[u8]]) -> Option<Record>
    ensures { result ≡ headed fields_say (texts parts.now) }
{
    let [kind, fields @ ..] = parts else {
        return None;
    };
    if says(kind, "dense") {
        dense(fields)
    } else if says(kind, "interleaved") {
        interleaved(fields)
    } else if says(kind, "bits") {
        bits(fields)
    } else if says(kind, "chunked") {
        chunked(fields)
    } else {
        None
    }
}

// The record that a word says.
#[tactic(auto, unfolding(crate::specs::Tables::record_of))]
fn record(heap: Global, word: &[u8]) -> Result<Record, Unsaid>
    ensures { Says (λ r. r) (record_of word.now) result }
{
    record_by(&pieces(heap, word, Mark::Colon)?).ok_or(Unsaid::Nothing)
}

// The table that a word says: items with semicolons between them, or a dash for no record.
pub(crate) fn table(heap: Global, word: &[u8]) -> Result<Vec<Record>, Unsaid>
    ensures { Says vec_items (table_of word.now) result }
{
    list_of::<Records>(heap, word, Mark::Semicolon, MAX_TABLE)
}
