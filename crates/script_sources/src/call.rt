// The calls on tables of records.
use ingest::Record;
use script::Kind;

// A call at a ring kind. Cells are given by the numbers of their elements.
// What calls have in common stays apart: ingest takes a table, its sources and the blocks apart, and a struct of them would only be opened there.
#[derive(Drop)]
pub(crate) enum CellsCall {
    ReadColumns {
        name: String,
        table: Vec<Record>,
        sources: usize,
        cells: Vec<usize>,
        words: Vec<usize>,
        buffer: Vec<usize>,
    },
    ReadCommitted {
        name: String,
        cells: Vec<usize>,
    },
    WitnessOfVector {
        name: String,
        cells: Vec<usize>,
    },
    WitnessOfBuffer {
        name: String,
        cells: Vec<usize>,
    },
    WritePiece {
        table: Vec<Record>,
        column: usize,
        cells: Vec<usize>,
        words: Vec<usize>,
        buffer: Vec<usize>,
    },
}

// A call, with everything that it is passed.
#[derive(Drop)]
pub(crate) enum Call {
    CheckOrder {
        table: Vec<Record>,
        sources: usize,
    },
    Height {
        table: Vec<Record>,
        sources: usize,
        column: usize,
    },
    Pass {
        table: Vec<Record>,
        sources: usize,
        column: usize,
    },
    Heights {
        table: Vec<Record>,
        sources: usize,
        buffer: Vec<usize>,
    },
    PieceHeight {
        table: Vec<Record>,
        column: usize,
    },
    Cells {
        kind: Kind,
        call: CellsCall,
    },
}
