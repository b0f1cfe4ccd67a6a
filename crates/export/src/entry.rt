// Records as C passes them: six numbers each.
ghost use Rattle.std.specs.Prelude.{◌≡◌, ◌≤◌, [], length, take};
ghost use Rattle.export.specs.Entries.{record_of, table_of};

use ingest::{MAX_RECORDS, Record};

// One record more than a table may have, so that a longer table is refused as one.
const MAX_ENTRIES: usize = MAX_RECORDS + 1;

// A record: its kind is 0 for dense, 1 for interleaved, 2 for bits, and chunked for any other.
// The kind is a number since the C interface has no enums with fields.
#[repr(C)]
#[derive(Clone, Copy)]
pub struct Entry {
    pub kind: usize,
    // where its part begins; of a chunked one, its first record
    pub place: usize,
    // the length of its part, in cells or in words
    pub length: usize,
    pub first: usize,
    pub stride: usize,
    // its rows; of a chunked one, how many records it has
    pub height: usize,
}

impl From<Entry> for Record {
    ghost from_gives = { λ e r. r ≡ record_of e };

    fn from(entry: Entry) -> Record
        ensures { result ≡ record_of entry }
    {
        match entry.kind {
            0 => Record::Dense {
                place: entry.place,
                height: entry.height,
            },
            1 => Record::Interleaved {
                place: entry.place,
                length: entry.length,
                first: entry.first,
                stride: entry.stride,
                height: entry.height,
            },
            2 => Record::Bits {
                place: entry.place,
                words: entry.length,
                height: entry.height,
            },
            _ => Record::Chunked {
                from: entry.place,
                count: entry.height,
            },
        }
    }
}

// The records of a call's entries, as many as a table can have and one more.
// An array with a count, since the library has no heap: the records past the count are none of the table's.
#[derive(Drop)]
pub(crate) struct Records {
    records: [Record; MAX_ENTRIES],
    count: usize,
    ghost few: { count ≤ 4097 },
    ghost long: { length records ≡ 4097 },
}

impl Records {
    // None yet. A caller fills these where they stay: to hand back full ones would copy 192 KiB.
    pub(crate) fn none() -> Records
        ensures { take result.count result.records ≡ [] }
    {
        // A record whose bytes are all 0, so that the array is cleared at once.
        Records {
            records: [Record::Dense {
                place: 0,
                height: 0,
            }; MAX_ENTRIES],
            count: 0,
        }
    }

    // The records of the entries, in place of those that there were.
    pub(crate) fn fill(&mut self, entries: &[Entry])
        ensures { take self.new.count self.new.records ≡ table_of entries.now }
    {
        let count = entries.len().min(MAX_ENTRIES);
        self.count = count;
        // The place is counted, since the library tells nothing of what a loop over `iter_mut` beside `zip` wrote.
        for (place, entry) in entries[..count].iter().enumerate() {
            self.records[place] = Record::from(*entry);
        }
    }

    pub(crate) fn as_slice(&self) -> &[Record]
        ensures { result.now ≡ take self.now.count self.now.records }
    {
        &self.records[..self.count]
    }
}
