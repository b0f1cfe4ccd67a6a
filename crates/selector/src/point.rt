// A point of the sparse table: row and column coordinates, lent.
ghost use Rattle.std.specs.Prelude.{◌≡◌};

#[derive(Clone, Copy)]
pub struct JaggedPoint<'a, R> {
    row: &'a [R],
    column: &'a [R],
}

impl<'a, R> JaggedPoint<'a, R> {
    pub fn new(row: &'a [R], column: &'a [R]) -> JaggedPoint<'a, R>
        ensures row { result.row.now ≡ row.now }
        ensures column { result.column.now ≡ column.now }
    {
        JaggedPoint { row, column }
    }

    // The coordinates that name a row, the most significant first.
    pub fn row(&self) -> &'a [R]
        ensures { result.now ≡ self.now.row.now }
    {
        self.row
    }

    // The coordinates that name a column, the most significant first.
    pub fn column(&self) -> &'a [R]
        ensures { result.now ≡ self.now.column.now }
    {
        self.column
    }
}
