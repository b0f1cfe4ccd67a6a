// Finds the leaves of records.
ghost use Rattle.std.specs.Prelude.{◌≡◌, ◌+◌, ◌<◌, ◌≤◌, [], ◌∷◌, ◌++◌, length};
ghost use Rattle.ingest.specs.Found.{found};
ghost use Rattle.ingest.specs.Order.{max_records};
ghost use Rattle.ingest.specs.Table.{leaves_of, leaves_at};
ghost use Rattle.ingest.specs.Walks.{run_of};

use crate::leaves::Leaves;
use crate::ordered::Ordered;
use crate::record::{MAX_RECORDS, Record};

impl Leaves {
    pub(crate) fn none() -> Leaves
        ensures { found result ≡ [] }
    {
        Leaves {
            numbers: [0; MAX_RECORDS],
            count: 0,
        }
    }

    // Adds a leaf.
    fn put(&mut self, record: usize)
        requires { length (found self.old) < max_records }
        ensures { found self.new ≡ found self.old ++ («record» ∷ []) }
    {
        self.numbers[self.count] = record;
        self.count += 1;
    }

    // The numbers that are found.
    pub(crate) fn as_slice(&self) -> &[usize]
        ensures { result.now ≡ found self.now }
    {
        &self.numbers[..self.count]
    }
}

impl<'a> Ordered<'a> {
    // Adds the leaves of a record, in the order of their rows.
    // A recursion of its own and not a step of `try_fold`: the project keeps the finding of leaves in this form.
    fn find(&self, record: usize, leaves: &mut Leaves)
        requires within { «record» < length self.now.records.now }
        requires room { length (found leaves.old) + length (leaves_at self.now.records.now «record») ≤ max_records }
        ensures { found leaves.new ≡ found leaves.old ++ leaves_at self.now.records.now «record» }
    {
        match self.records[record] {
            Record::Chunked { from, count } => {
                for (part, &entry) in self.records[from..from + count].iter().enumerate() {
                    match entry {
                        Record::Chunked { .. } => self.find(from + part, leaves),
                        _ => leaves.put(from + part),
                    }
                }
            }
            _ => leaves.put(record),
        }
    }

    // Finds the leaves of all columns, into leaves that are lent empty: to hand back all their room would copy 32 KiB.
    pub(crate) fn find_all(&self, leaves: &mut Leaves)
        requires { found leaves.old ≡ [] }
        ensures { found leaves.new ≡ run_of (leaves_of self.now.records.now) 0 self.now.sources }
    {
        // A column is asked for by its number; what its record holds is looked at by what is called.
        for column in 0..self.sources {
            self.find(column, leaves);
        }
    }
}
