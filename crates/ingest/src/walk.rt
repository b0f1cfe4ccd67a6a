// The walk over the leaves of a table.
ghost use Rattle.std.specs.Prelude.{◌+◌, ◌≤◌, length};
ghost use Rattle.ingest.specs.Walks.{TriesOver};

use crate::ordered::Ordered;
use crate::record::Record;

impl<'a> Ordered<'a> {
    // Takes a step at each leaf of a run of records, in the order of their rows, up to the first error.
    // A step is passed what the one before it gave, the leaf's number, and the leaf.
    pub(crate) fn try_fold<A, E, F: Fn(A, usize, Record) -> Result<A, E>>(
        &self,
        from: usize,
        count: usize,
        start: A,
        step: &F,
    ) -> Result<A, E>
        requires callable { F.IsAlwaysCallable step.now }
        requires within { from + count ≤ length self.now.records.now }
        ensures { TriesOver (F.post step.now) self.now.records.now from count start result }
    {
        let mut folded = start;
        for (part, &entry) in self.records[from..from + count].iter().enumerate() {
            folded = match entry {
                Record::Chunked { from, count } => self.try_fold(from, count, folded, step)?,
                leaf => step(folded, from + part, leaf)?,
            };
        }
        Ok(folded)
    }
}
