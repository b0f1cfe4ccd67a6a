// What single words say: numbers, lists, bytes, names.
ghost use Rattle.std.specs.Prelude.{◌≡◌, vec_items, string_bytes};
ghost use Rattle.std.specs.Str.{bytes_eq};
ghost use Rattle.words.specs.Said.{Says};
ghost use Rattle.words.specs.Words.{number_of, size_of, digit_of, byte_of, bytes_of, is_name_byte, is_name, name_of, truth_of};

use crate::unsaid::Unsaid;
use std::alloc::Global;

// The most cells that a list or a buffer of a script has.
pub const MAX_CELLS: usize = 16777216;

// The number that a word of decimal digits writes, if it is below 2^64.
pub fn number(word: &[u8]) -> Option<usize>
    ensures { result ≡ number_of word.now }
{
    // `parse` takes a sign, and a script has none
    if word.is_empty() || word[0] == b'+' {
        return None;
    }
    std::str::from_utf8(word).ok()?.parse::<usize>().ok()
}

// The length of a list or a buffer.
pub fn size(word: &[u8]) -> Option<usize>
    ensures { result ≡ size_of word.now }
{
    number(word).filter(|size| *size <= MAX_CELLS)
}

// Whether a word is this one.
pub fn says(word: &[u8], text: &str) -> bool
    ensures { result ≡ bytes_eq word.now text.now }
{
    word == text.as_bytes()
}

// The number of a hexadecimal digit, in lower case.
fn digit(code: u8) -> Option<u8>
    ensures { result ≡ digit_of code }
{
    match code {
        b'0'..=b'9' => Some(code - b'0'),
        b'a'..=b'f' => Some(code - b'a' + 10),
        _ => None,
    }
}

// The byte of two hexadecimal digits.
fn byte(high: u8, low: u8) -> Option<u8>
    ensures { result ≡ byte_of high low }
{
    Some(16 * digit(high)? + digit(low)?)
}

// The bytes that a word says: two hexadecimal digits each, or a dash for none.
pub fn bytes(heap: Global, word: &[u8]) -> Result<Vec<u8>, Unsaid>
    ensures { Says vec_items (bytes_of word.now) result }
{
    let mut bytes = Vec::new(heap);
    if says(word, "-") {
        return Ok(bytes);
    }
    if word.is_empty() || word.len() % 2 != 0 || word.len() / 2 > MAX_CELLS {
        return Err(Unsaid::Nothing);
    }
    let mut rest = word;
    while let [high, low, others @ ..] = rest {
        bytes.push(byte(*high, *low).ok_or(Unsaid::Nothing)?)?;
        rest = others;
    }
    Ok(bytes)
}

// Whether a byte may stand in a name: a letter, a digit, `_` or `-`.
fn is_name_byte(code: u8) -> bool
    ensures { result ≡ is_name_byte code }
{
    code.is_ascii_alphabetic() || code.is_ascii_digit() || code == b'_' || code == b'-'
}

// Whether a word is a name.
fn is_name(word: &[u8]) -> bool
    ensures { result ≡ is_name word.now }
{
    !word.is_empty() && word.iter().all(|code| is_name_byte(*code))
}

// The name that a word says.
pub fn name(heap: Global, word: &[u8]) -> Result<String, Unsaid>
    ensures { Says string_bytes (name_of word.now) result }
{
    match std::str::from_utf8(word) {
        Ok(text) if is_name(word) => Ok(String::from_str(heap, text)?),
        _ => Err(Unsaid::Nothing),
    }
}

// The flag that a word says.
pub fn truth(word: &[u8]) -> Option<bool>
    ensures { result ≡ truth_of word.now }
{
    if says(word, "true") {
        Some(true)
    } else if says(word, "false") {
        Some(false)
    } else {
        None
    }
}
