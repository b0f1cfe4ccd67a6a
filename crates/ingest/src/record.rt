// The records of a table: where the rows of a column lie in the lent blocks.
ghost use Rattle.std.specs.Prelude.{◌≡◌};
ghost use Rattle.ingest.specs.Passes.{rank_of, higher_of};

// The most records that a table may have; they are numbered from 0.
pub const MAX_RECORDS: usize = 4096;

#[derive(Clone, Copy, Debug, PartialEq, Eq)]
pub enum Record {
    // Consecutive cells of the block, in row order.
    Dense {
        place: usize,
        height: usize,
    },
    // Cells of a part of the block, at a fixed step.
    Interleaved {
        place: usize,
        length: usize,
        first: usize,
        stride: usize,
        height: usize,
    },
    // One bit a row, sixty-four to a word, the lowest first.
    Bits {
        place: usize,
        words: usize,
        height: usize,
    },
    // The rows of a run of later records, in order.
    Chunked {
        from: usize,
        count: usize,
    },
}

// The work that rows owe before they lie in the dense vector, from free to most expensive.
#[derive(Clone, Copy, Debug, PartialEq, Eq, PartialOrd, Ord)]
pub enum ConversionPass {
    // The cells are the committed vector already, and nothing reads them.
    Shared,
    // The cells are consecutive elsewhere, and move as they are.
    Copied,
    // The cells lie apart, and move one stride at a time.
    Gathered,
    // The cells are bits, and each widens to a ring element.
    Widened,
}

impl ConversionPass {
    // The order of the passes by their cost.
    pub fn rank(self) -> u8
        ensures { result ≡ rank_of self }
    {
        self as u8
    }

    // The other pass where its rank is higher.
    pub fn higher(self, other: ConversionPass) -> ConversionPass
        ensures { result ≡ higher_of self other }
    {
        self.max(other)
    }
}
