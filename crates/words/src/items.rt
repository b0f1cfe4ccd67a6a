// Lists that words say: items with marks between them, each so many times.
ghost use Rattle.std.specs.Prelude.{◌≡◌, ◌+◌, ◌≤◌, ℕ, List, vec_items, vec_len, Option};
ghost use Rattle.std.specs.Option.{option_map};
ghost use Rattle.words.specs.Said.{Says};
ghost use Rattle.words.specs.Words.{cut_by, item_of, list_by, list_of, repeated};

use crate::literal::{MAX_CELLS, number, says};
use crate::split::{Mark, pieces, reach};
use crate::unsaid::Unsaid;
use std::alloc::{AllocError, Global};

// What the items of a list are.
pub trait Item {
    type Value: Copy;

    // what an item says, as the list of its values
    ghost said: { List ℕ → Option (List Self.Value) };

    // What an item says: a value, and how often it comes.
    fn run(heap: Global, item: &[u8]) -> Result<(Self::Value, usize), Unsaid>
        ensures { Says repeated (said item.now) result };
}

// Items that are numbers.
pub struct Numbers;

impl Item for Numbers {
    type Value = usize;

    ghost said = { item_of };

    fn run(heap: Global, item: &[u8]) -> Result<(usize, usize), Unsaid> {
        run(item).ok_or(Unsaid::Nothing)
    }
}

// The part of an item before its star, and how often it comes: once where it has no star.
pub fn starred(item: &[u8]) -> Option<(&[u8], usize)>
    ensures { option_map (λ p. (p.0.now, p.1)) result ≡ cut_by item.now }
{
    let end = reach(item, Mark::Star);
    if end == item.len() {
        return Some((item, 1));
    }
    Some((&item[..end], number(&item[end + 1..])?))
}

// What an item of a list of numbers says: a number, and how often it comes.
pub fn run(item: &[u8]) -> Option<(usize, usize)>
    ensures { option_map repeated result ≡ item_of item.now }
{
    let (word, times) = starred(item)?;
    Some((number(word)?, times))
}

// Makes room in a list for so many more values. Where there is too little, the room is the next power of two, as when
// values are put one by one, but never more than the list may have.
fn make_room<T: Copy>(list: &mut Vec<T>, more: usize, most: usize) -> Result<(), AllocError>
    requires { vec_len list.old + more ≤ most }
    ensures items { list.new.items ≡ list.old.items }
    ensures len { vec_len list.new ≡ vec_len list.old }
{
    let length = list.len() + more;
    if length > list.capacity() {
        let power = length.checked_next_power_of_two().unwrap_or(most);
        let room = power.min(most).max(length);
        list.reserve_exact(room - list.len())?;
    }
    Ok(())
}

// The list that a word says: items with marks between them, or a dash for none; at most so many values.
pub fn list_of<I: Item>(
    heap: Global,
    word: &[u8],
    mark: Mark,
    most: usize,
) -> Result<Vec<I::Value>, Unsaid>
    ensures { Says vec_items (list_by I.said mark most word.now) result }
{
    let mut list = Vec::new(heap);
    if says(word, "-") {
        return Ok(list);
    }
    for item in pieces(heap, word, mark)?.iter() {
        let (value, times) = I::run(heap, item)?;
        if times > most.saturating_sub(list.len()) {
            return Err(Unsaid::Nothing);
        }
        make_room(&mut list, times, most)?;
        list.resize(list.len() + times, value)?;
    }
    Ok(list)
}

// The list of numbers that a word says.
pub fn list(heap: Global, word: &[u8]) -> Result<Vec<usize>, Unsaid>
    ensures { Says vec_items (list_of word.now) result }
{
    list_of::<Numbers>(heap, word, Mark::Comma, MAX_CELLS)
}
