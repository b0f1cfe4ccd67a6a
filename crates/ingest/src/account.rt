// The report of a reading, whose numbers together are a machine index.
ghost use Rattle.std.specs.Prelude.{◌+◌, ◌^◌, ◌<◌};

#[derive(Clone, Copy, Debug)]
pub struct IngestReport {
    // Rows of a committed vector, used where they lie.
    pub(crate) shared: usize,
    // Rows that moved as they were.
    pub(crate) copied: usize,
    // Rows gathered one stride at a time.
    pub(crate) gathered: usize,
    // Rows widened from a bit.
    pub(crate) widened: usize,
    // Cells written only to reach the capacity.
    pub(crate) envelope: usize,
    ghost fits: { shared + copied + gathered + widened + envelope < 2 ^ 64 },
}
