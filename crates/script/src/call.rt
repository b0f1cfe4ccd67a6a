// The calls of a script.

// The ring kinds.
#[derive(Clone, Copy, Debug, PartialEq, Eq)]
pub enum Kind {
    Residue,
    Word,
    PairResidue,
    PairWord,
    PairPairResidue,
    PairPairWord,
}

// A call at a ring kind. An element is given by its numbers.
#[derive(Drop)]
pub enum RingCall {
    ByteLength,
    Encode { element: Vec<usize>, room: usize },
    Read { bytes: Vec<u8> },
    Zero,
    One,
    Plus { a: Vec<usize>, b: Vec<usize> },
    Minus { a: Vec<usize>, b: Vec<usize> },
    Times { a: Vec<usize>, b: Vec<usize> },
    FromBool { set: bool },
    Equal { a: Vec<usize>, b: Vec<usize> },
}

// A call, with everything that it is passed.
#[derive(Drop)]
pub enum Call {
    New {
        name: String,
        row_variables: usize,
        heights: Vec<usize>,
    },
    WithMinDenseVariables {
        name: String,
        row_variables: usize,
        heights: Vec<usize>,
        minimum: usize,
    },
    Show {
        name: String,
    },
    ColumnHeight {
        name: String,
        column: usize,
    },
    EncodeLayout {
        name: String,
        room: usize,
    },
    Ring {
        kind: Kind,
        call: RingCall,
    },
}
