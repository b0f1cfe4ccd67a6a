// A table whose order has been checked.
ghost use Rattle.std.specs.Prelude.{◌≤◌, length};
ghost use Rattle.ingest.specs.Order.{max_records};
ghost use Rattle.ingest.specs.Table.{Sound, leaves_of};
ghost use Rattle.ingest.specs.Walks.{run_of};

use crate::record::Record;

// The run of each chunk follows it and is present, and so are the columns, one for each source, whose leaves are few.
// Which record is meant is told by its number, within the table: a type for such numbers would be made anew for each part.
#[derive(Clone, Copy)]
pub(crate) struct Ordered<'a> {
    pub(crate) records: &'a [Record],
    pub(crate) sources: usize,
    ghost sound: { Sound records.now },
    ghost present: { sources ≤ length records.now },
    ghost few: { length (run_of (leaves_of records.now) 0 sources) ≤ max_records },
}
