// What a layout tells of itself.
#![tactic(auto, using(crate::proofs::Shapes::read_off), unfolding(crate::specs::Layout::shape))]

ghost use Rattle.std.specs.Prelude.{◌≡◌, ◌+◌, ◌^◌, [], ◌∷◌, Decides, nat_le};
ghost use Rattle.std.specs.Int.Count.{count_trailing_zeros};
ghost use Rattle.ring.specs.Checks.{verdict, when};
ghost use Rattle.layout.specs.declared.error.JaggedLayoutError.TheVariants.{NoSuchColumn};
ghost use Rattle.layout.specs.Equality.{same_layout};
ghost use Rattle.layout.specs.Layout.{shape};
ghost use Rattle.layout.specs.Shape.{Lawful, columns, height, area, capacity, boundaries};
ghost use Rattle.std.specs.Cmp.Rules.{comparing};
ghost use Rattle.std.proofs.Common.{rules, arith};

use crate::error::JaggedLayoutError;
use crate::geometry::JaggedLayout;

impl JaggedLayout {
    pub fn row_variables(&self) -> usize
        ensures { result ≡ (shape self.now).rows }
    {
        self.row_variables
    }

    // The number of coordinates that name a column.
    pub fn column_variables(&self) -> usize
        ensures answer { result ≡ count_trailing_zeros 64 (columns (shape self.now)) }
        ensures power { 2 ^ result ≡ columns (shape self.now) }
    {
        self.num_columns().trailing_zeros() as usize
    }

    pub fn dense_variables(&self) -> usize
        ensures { result ≡ (shape self.now).dense }
    {
        self.dense_variables
    }

    pub fn num_columns(&self) -> usize
        ensures { result ≡ columns (shape self.now) }
    {
        self.columns
    }

    // The number of rows in all columns together.
    pub fn area(&self) -> usize
        ensures { result ≡ area (shape self.now) }
    {
        self.boundaries[self.columns]
    }

    // The number of cells of the dense vector.
    pub fn dense_capacity(&self) -> usize
        ensures { result ≡ capacity (shape self.now) }
    {
        1 << self.dense_variables
    }

    pub fn column_height(&self, column: usize) -> Result<usize, JaggedLayoutError>
        ensures { result ≡ verdict (when (nat_le (columns (shape self.now)) column) (NoSuchColumn column (columns (shape self.now))) ∷ []) (height (shape self.now) column) }
    {
        if column >= self.columns {
            return Err(JaggedLayoutError::NoSuchColumn {
                column,
                columns: self.columns,
            });
        }
        Ok(self.boundaries[column + 1] - self.boundaries[column])
    }

    // The boundaries, where they lie in the layout.
    pub fn cumulative_heights(&self) -> &[usize]
        ensures value { result.now ≡ boundaries (shape self.now) }
        ensures lawful { Lawful (shape self.now) }
        ensures place { (result.ref_ptr.0 ≡ self.entry.ref_ptr.0) × (result.ref_ptr.1 ≡ self.entry.ref_ptr.1 + 24) }
    {
        &self.boundaries[0..self.columns + 1]
    }
}

// Layouts are equal where their shapes are; by hand, since a derive would promise the same cells and compare all of them.
impl PartialEq for JaggedLayout {
    ghost eq = { same_layout };

    ghost laws = { Prim.search (comparing, rules) };

    fn eq(&self, other: &JaggedLayout) -> bool
        ensures answer { result ≡ same_layout self.now other.now }
        ensures decided { Decides result (shape self.now ≡ shape other.now) }
    {
        self.row_variables == other.row_variables
            && self.dense_variables == other.dense_variables
            && self.cumulative_heights() == other.cumulative_heights()
    }
}

impl Eq for JaggedLayout {
    ghost laws = { Prim.search (comparing, rules) };
}
