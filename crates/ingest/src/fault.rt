// The faults of reading a trace, and those of a leaf, which a reading passes up.
ghost use Rattle.std.specs.Prelude.{◌≡◌};
ghost use Rattle.ingest.specs.Faults.{fault_number, leaf_number, passed_up};

// What is wrong with a leaf, told with the column whose rows it holds.
// These stand again among the faults of a reading, whose variants callers match on; the check of a leaf can give no other.
#[derive(Clone, Copy, Debug, PartialEq, Eq)]
pub enum LeafError {
    // A row would stand still.
    ZeroStride {
        column: usize,
    },
    // The last row lies outside the leaf's part; `required` is told as at most 2^64 - 1.
    StrideOutOfRange {
        column: usize,
        required: usize,
        available: usize,
    },
    PackedWordsTooShort {
        column: usize,
        required: usize,
        available: usize,
    },
    // The leaf's cells or words pass the end of the block.
    PlaceOutsideBlock {
        column: usize,
        record: usize,
    },
}

impl LeafError {
    // The number that the fault goes by.
    // Told apart from those of a reading, as the contract tells it: by `From` it would be told by the fault that is made of it.
    pub fn number(&self) -> u8
        ensures { result ≡ leaf_number self.now }
    {
        match self {
            LeafError::ZeroStride { .. } => 12,
            LeafError::StrideOutOfRange { .. } => 13,
            LeafError::PackedWordsTooShort { .. } => 14,
            LeafError::PlaceOutsideBlock { .. } => 16,
        }
    }
}

#[derive(Clone, Copy, Debug, PartialEq, Eq)]
pub enum JaggedIngestError {
    // The committed vector is shorter than the dense vector.
    CommittedVectorTooShort {
        required: usize,
        available: usize,
    },
    // There are more or fewer sources than columns.
    ColumnCountMismatch {
        expected: usize,
        actual: usize,
    },
    ColumnHeightMismatch {
        column: usize,
        expected: usize,
        actual: usize,
    },
    ZeroStride {
        column: usize,
    },
    StrideOutOfRange {
        column: usize,
        required: usize,
        available: usize,
    },
    PackedWordsTooShort {
        column: usize,
        required: usize,
        available: usize,
    },
    // The lowest record that is out of order.
    TableOutOfOrder {
        record: usize,
    },
    PlaceOutsideBlock {
        column: usize,
        record: usize,
    },
    // The column's height is no machine index.
    ColumnHeightOverflow {
        column: usize,
    },
    BufferTooShort {
        required: usize,
        available: usize,
    },
    NoSuchColumn {
        column: usize,
        columns: usize,
    },
}

impl JaggedIngestError {
    // The number that the fault goes by.
    pub fn number(&self) -> u8
        ensures { result ≡ fault_number self.now }
    {
        match self {
            JaggedIngestError::CommittedVectorTooShort { .. } => 9,
            JaggedIngestError::ColumnCountMismatch { .. } => 10,
            JaggedIngestError::ColumnHeightMismatch { .. } => 11,
            JaggedIngestError::ZeroStride { .. } => 12,
            JaggedIngestError::StrideOutOfRange { .. } => 13,
            JaggedIngestError::PackedWordsTooShort { .. } => 14,
            JaggedIngestError::TableOutOfOrder { .. } => 15,
            JaggedIngestError::PlaceOutsideBlock { .. } => 16,
            JaggedIngestError::ColumnHeightOverflow { .. } => 17,
            JaggedIngestError::BufferTooShort { .. } => 18,
            JaggedIngestError::NoSuchColumn { .. } => 20,
        }
    }
}

// A leaf's fault keeps its name, its number and its fields.
impl From<LeafError> for JaggedIngestError {
    ghost from_gives = { λ e r. r ≡ passed_up e };

    fn from(fault: LeafError) -> JaggedIngestError
        ensures { result ≡ passed_up fault }
    {
        match fault {
            LeafError::ZeroStride { column } => JaggedIngestError::ZeroStride { column },
            LeafError::StrideOutOfRange {
                column,
                required,
                available,
            } => JaggedIngestError::StrideOutOfRange {
                column,
                required,
                available,
            },
            LeafError::PackedWordsTooShort {
                column,
                required,
                available,
            } => JaggedIngestError::PackedWordsTooShort {
                column,
                required,
                available,
            },
            LeafError::PlaceOutsideBlock { column, record } => {
                JaggedIngestError::PlaceOutsideBlock { column, record }
            }
        }
    }
}
