// A jagged layout, and what every one of them keeps.
ghost use Rattle.std.specs.Prelude.{◌≡◌, ℕ, ◌+◌, ◌^◌, ◌<◌, ◌≤◌, true, length, slice_index};
ghost use Rattle.layout.specs.Powers.{power_of_two};
ghost use Rattle.layout.specs.Shape.{max_columns};

// The most columns that a layout may have. The contracts say the number themselves, as `max_columns`, and hold at no other.
pub const MAX_COLUMNS: usize = 256;

// One boundary before each column, and one after the last.
pub const MAX_BOUNDARIES: usize = MAX_COLUMNS + 1;

// Column y takes the dense indexes from boundary y up to boundary y + 1; cells past the last boundary are 0.
// The boundaries stand in the layout itself, and the number of columns beside them, since this library allocates nothing.
#[derive(Clone, Copy, Debug)]
pub struct JaggedLayout {
    pub(crate) row_variables: usize,
    pub(crate) dense_variables: usize,
    pub(crate) columns: usize,
    pub(crate) boundaries: [usize; MAX_BOUNDARIES],
    ghost power: { power_of_two columns ≡ true },
    ghost few: { columns ≤ max_columns },
    ghost rows: { row_variables < 64 },
    ghost dense: { dense_variables < 64 },
    ghost long: { length boundaries ≡ max_columns + 1 },
    ghost origin: { slice_index boundaries 0 ≡ 0 },
    ghost ascends: { (y : ℕ) → y < columns → slice_index boundaries y ≤ slice_index boundaries (y + 1) },
    ghost bounded: { (y : ℕ) → y < columns → slice_index boundaries (y + 1) ≤ slice_index boundaries y + 2 ^ row_variables },
    ghost covered: { slice_index boundaries columns ≤ 2 ^ dense_variables },
    ghost blank: { (y : ℕ) → columns < y → slice_index boundaries y ≡ 0 },
}
