// The leaves that are found in a table: their record numbers, in the order of their rows.
ghost use Rattle.std.specs.Prelude.{◌≡◌, ◌≤◌, length};

use crate::record::MAX_RECORDS;

// Leaves are found before a row is written, a form that the project keeps; with no heap they lie in an array, with their count.
#[derive(Drop)]
pub(crate) struct Leaves {
    pub(crate) numbers: [usize; MAX_RECORDS],
    pub(crate) count: usize,
    ghost within: { count ≤ 4096 },
    ghost long: { length numbers ≡ 4096 },
}
