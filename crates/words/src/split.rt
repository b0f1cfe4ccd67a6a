// A text cut at its marks: a script into lines, a line into words, a list into items.
ghost use Rattle.std.specs.Prelude.{◌≡◌, ◌≤◌, length, IfOk};
ghost use Rattle.words.specs.Cuts.{is_mark, ahead, pieces as cut, texts, words as words_in};

use std::alloc::{AllocError, Global};

// What a text is cut at.
#[derive(Clone, Copy, Debug, PartialEq, Eq)]
pub enum Mark {
    Newline,
    // a space, a tab or a carriage return
    Blank,
    Comma,
    Star,
    Semicolon,
    Colon,
}

impl Mark {
    // Whether a byte is such a mark.
    pub fn is(self, byte: u8) -> bool
        ensures { result ≡ is_mark self byte }
    {
        match self {
            Mark::Newline => byte == b'\n',
            Mark::Blank => matches!(byte, b' ' | b'\t' | b'\r'),
            Mark::Comma => byte == b',',
            Mark::Star => byte == b'*',
            Mark::Semicolon => byte == b';',
            Mark::Colon => byte == b':',
        }
    }
}

// How many bytes stand before the first mark.
pub fn reach(text: &[u8], mark: Mark) -> usize
    ensures answer { result ≡ ahead mark text.now }
    ensures within { result ≤ length text.now }
{
    text.iter()
        .position(|byte| mark.is(*byte))
        .unwrap_or(text.len())
}

// The texts between the marks; they borrow the whole.
pub fn pieces<'a>(heap: Global, text: &'a [u8], mark: Mark) -> Result<Vec<&'a [u8]>, AllocError>
    ensures { IfOk result (λ v. texts v.items ≡ cut mark text.now) }
{
    let mut pieces = Vec::new(heap);
    for piece in text.split(|byte| mark.is(*byte)) {
        pieces.push(piece)?;
    }
    Ok(pieces)
}

// The words of a line.
pub fn words<'a>(heap: Global, line: &'a [u8]) -> Result<Vec<&'a [u8]>, AllocError>
    ensures { IfOk result (λ v. texts v.items ≡ words_in line.now) }
{
    let mut words = Vec::new(heap);
    for piece in line.split(|byte| Mark::Blank.is(*byte)) {
        if !piece.is_empty() {
            words.push(piece)?;
        }
    }
    Ok(words)
}
