// The two blocks that the leaves of a table lie in.
ghost use Rattle.std.specs.Prelude.{◌≡◌, length};

use ring::Ring;

// The lengths of the blocks.
#[derive(Clone, Copy)]
pub(crate) struct Extent {
    pub(crate) cells: usize,
    pub(crate) words: usize,
}

// The blocks as they are lent: the cells, and the words of bits.
#[derive(Clone, Copy)]
pub(crate) struct Block<'a, R> {
    pub(crate) cells: &'a [R],
    pub(crate) words: &'a [u64],
}

impl<'a, R: Ring> Block<'a, R> {
    // How long they are.
    pub(crate) fn extent(&self) -> Extent
        ensures cells { result.cells ≡ length self.now.cells.now }
        ensures words { result.words ≡ length self.now.words.now }
    {
        Extent {
            cells: self.cells.len(),
            words: self.words.len(),
        }
    }
}
