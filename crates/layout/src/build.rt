// Makes layouts: checks what is asked for, and lays the columns one after the other.
ghost use Rattle.std.specs.Prelude.{◌≡◌, ℕ, ◌^◌, ◌<◌, ◌≤◌, length, take, sum, MatchResult, slice_index};
ghost use Rattle.ring.specs.Checks.{verdict, Told};
ghost use Rattle.layout.specs.Layout.{shape, AllLawful};
ghost use Rattle.layout.specs.Plan.{checks, count_checks, height_checks, dense_checks, dense_for, planned};
ghost use Rattle.layout.specs.Powers.{PowersOfTwo, LeastCovering};
ghost use Rattle.layout.specs.Shape.{empty_shape, max_columns};

use crate::error::JaggedLayoutError;
use crate::geometry::{JaggedLayout, MAX_BOUNDARIES, MAX_COLUMNS};

impl JaggedLayout {
    // One empty column: a layout to begin with.
    pub fn empty() -> JaggedLayout
        ensures { shape result ≡ empty_shape }
    {
        JaggedLayout {
            row_variables: 0,
            dense_variables: 0,
            columns: 1,
            boundaries: [0; MAX_BOUNDARIES],
        }
    }

    // Lays out columns of these heights, on the fewest dense variables.
    pub fn new(&mut self, row_variables: usize, heights: &[usize]) -> Result<(), JaggedLayoutError>
        ensures answer { result ≡ verdict (checks row_variables heights.now 0) tt }
        ensures after { MatchResult result (λ _. shape self.new ≡ planned row_variables heights.now 0) (λ _. self.new ≡ self.old) }
        ensures first { Told (checks row_variables heights.now 0) result }
    {
        self.with_min_dense_variables(row_variables, heights, 0)
    }

    // Lays out columns of these heights, on at least so many dense variables.
    pub fn with_min_dense_variables(
        &mut self,
        row_variables: usize,
        heights: &[usize],
        min_dense_variables: usize,
    ) -> Result<(), JaggedLayoutError>
        ensures answer { result ≡ verdict (checks row_variables heights.now min_dense_variables) tt }
        ensures after { MatchResult result (λ _. shape self.new ≡ planned row_variables heights.now min_dense_variables) (λ _. self.new ≡ self.old) }
        ensures first { Told (checks row_variables heights.now min_dense_variables) result }
        ensures powers { PowersOfTwo }
        ensures least { LeastCovering }
        ensures lawful { AllLawful }
    {
        let dense_variables = checked_dense_variables(row_variables, heights, min_dense_variables)?;
        *self = JaggedLayout {
            row_variables,
            dense_variables,
            columns: heights.len(),
            boundaries: boundaries_of(heights),
        };
        Ok(())
    }
}

// By hand, since a derive would have no column at all.
impl Default for JaggedLayout {
    ghost is_default = { λ l. shape l ≡ empty_shape };

    fn default() -> JaggedLayout
        ensures { shape result ≡ empty_shape }
    {
        JaggedLayout::empty()
    }
}

// Runs every check of an asked layout, and gives its dense variables.
fn checked_dense_variables(
    row_variables: usize,
    heights: &[usize],
    minimum: usize,
) -> Result<usize, JaggedLayoutError>
    ensures { result ≡ verdict (checks row_variables heights.now minimum) (dense_for (sum heights.now) minimum) }
{
    check_counts(row_variables, heights.len())?;
    let area = area_of(row_variables, heights)?;
    dense_for(area, minimum)
}

fn check_counts(row_variables: usize, columns: usize) -> Result<(), JaggedLayoutError>
    ensures { result ≡ verdict (count_checks row_variables columns) tt }
{
    if columns == 0 {
        return Err(JaggedLayoutError::NoColumns);
    }
    if !columns.is_power_of_two() {
        return Err(JaggedLayoutError::ColumnCountNotPowerOfTwo { columns });
    }
    if columns > MAX_COLUMNS {
        return Err(JaggedLayoutError::TooManyColumns {
            columns,
            maximum: MAX_COLUMNS,
        });
    }
    if row_variables >= 64 {
        return Err(JaggedLayoutError::RowVariablesOverflow {
            variables: row_variables,
        });
    }
    Ok(())
}

// The heights added up, each within its bound and the sum within a machine index.
fn area_of(row_variables: usize, heights: &[usize]) -> Result<usize, JaggedLayoutError>
    requires { row_variables < 64 }
    ensures { result ≡ verdict (height_checks row_variables heights.now) (sum heights.now) }
{
    let maximum = 1usize << row_variables;
    let mut area: usize = 0;
    for (column, height) in heights.iter().enumerate() {
        if *height > maximum {
            return Err(JaggedLayoutError::HeightExceedsRowBound {
                column,
                height: *height,
                maximum,
            });
        }
        area = area
            .checked_add(*height)
            .ok_or(JaggedLayoutError::AreaOverflow { column })?;
    }
    Ok(area)
}

// The fewest variables that cover the area, and at least the minimum.
fn dense_for(area: usize, minimum: usize) -> Result<usize, JaggedLayoutError>
    ensures { result ≡ verdict (dense_checks area minimum) (dense_for area minimum) }
{
    // The dense vector of an empty table still has one cell.
    let capacity = area
        .max(1)
        .checked_next_power_of_two()
        .ok_or(JaggedLayoutError::DenseAreaOverflow { area })?;
    let variables = (capacity.trailing_zeros() as usize).max(minimum);
    if variables >= 64 {
        return Err(JaggedLayoutError::DenseVariablesOverflow { variables });
    }
    Ok(variables)
}

// Where each column starts, and where the last ends.
// The place is counted, since the library tells nothing of what a loop over `iter_mut` beside `zip` wrote.
fn boundaries_of(heights: &[usize]) -> [usize; MAX_BOUNDARIES]
    requires few { length heights.now ≤ max_columns }
    requires fits { sum heights.now < 2 ^ 64 }
    ensures starts { (y : ℕ) → y ≤ length heights.now → slice_index result y ≡ sum (take y heights.now) }
    ensures blank { (y : ℕ) → length heights.now < y → slice_index result y ≡ 0 }
{
    let mut boundaries = [0; MAX_BOUNDARIES];
    let mut area: usize = 0;
    for (column, height) in heights.iter().enumerate() {
        area += *height;
        boundaries[column + 1] = area;
    }
    boundaries
}
