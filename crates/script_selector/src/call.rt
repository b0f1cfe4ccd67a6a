// The calls of the selector. Cells and points are given by their numbers.

// A point of a slot's layout, and the cells that go with it: a buffer, or a dense point.
#[derive(Drop)]
pub struct Asked {
    pub(crate) name: String,
    pub(crate) row: Vec<usize>,
    pub(crate) column: Vec<usize>,
    pub(crate) cells: Vec<usize>,
}

#[derive(Drop)]
pub enum Call {
    EqualityPrefix {
        point: Vec<usize>,
        buffer: Vec<usize>,
    },
    Table {
        asked: Asked,
    },
    Evaluate {
        asked: Asked,
    },
}
