// Words: numbers that wrap at 2^64.
ghost use Rattle.std.specs.Prelude.{◌≡◌, ◌==◌, Some, decimal, Decides};
ghost use Rattle.std.proofs.Common.{ap, lit<, lit≤, rules};
ghost use Rattle.ring.specs.Bytes.{eight};
ghost use Rattle.ring.specs.Kinds.{words, word_of, word_value, wrap};
ghost use Rattle.ring.specs.Remainders.{modular_laws};
ghost use Rattle.ring.specs.Spellings.{same_below};
ghost use Rattle.std.specs.Cmp.Rules.{comparing};
ghost use Rattle.std.specs.Cmp as Keys;

use crate::coefficient::Coefficient;
use crate::fault::RingError;
use crate::kind::Ring;
use crate::number::{number_of, put_number};
use std::fmt;

#[repr(C)]
#[derive(Clone, Copy)]
pub struct Word {
    number: u64,
}

impl Word {
    pub fn new(number: u64) -> Word
        ensures { word_value result ≡ word_of number }
    {
        Word { number }
    }

    pub fn number(self) -> u64
        ensures { result ≡ (word_value self).0 }
    {
        let Word { number } = self;
        number
    }
}

impl Ring for Word {
    ghost ops = { words };

    ghost value = { word_value };

    ghost lawful = { modular_laws wrap (lit< tt) };

    fn zero() -> Word {
        Word { number: 0 }
    }

    fn one() -> Word {
        Word { number: 1 }
    }

    fn plus(self, other: Word) -> Word {
        Word {
            number: self.number.wrapping_add(other.number),
        }
    }

    fn minus(self, other: Word) -> Word {
        Word {
            number: self.number.wrapping_sub(other.number),
        }
    }

    fn times(self, other: Word) -> Word {
        Word {
            number: self.number.wrapping_mul(other.number),
        }
    }

    fn from_bool(set: bool) -> Word {
        Word { number: set as u64 }
    }
}

// Each body is one call, as for residues: one impl for both kinds would overlap with that for pairs.
impl Coefficient for Word {
    ghost width = { 8 };

    ghost spelling = { λ x. eight (word_value x).0 };

    ghost sized = { Prim.search rules };

    ghost determined = { λ x y same. ap (λ v. eight v.0) same };

    ghost distinct = { λ x y same. same_below (lit≤ tt) (word_value x) (word_value y) same };

    fn byte_length() -> usize {
        8
    }

    fn encode(self, bytes: &mut [u8]) -> Result<usize, RingError> {
        put_number(self.number, bytes)
    }

    fn read(bytes: &[u8]) -> Option<Word> {
        let number = number_of(bytes)?;
        Some(Word { number })
    }
}

// Equal where the values are; by hand, since a derive would promise the same held numbers, and not the same values.
impl PartialEq for Word {
    ghost eq = { λ x y. (word_value x).0 == (word_value y).0 };

    ghost laws = { Keys.partial_equiv_from_equiv (Prim.search (comparing, rules)) };

    fn eq(&self, other: &Word) -> bool
        ensures answer { result ≡ ((word_value self.now).0 == (word_value other.now).0) }
        ensures decided { Decides result (word_value self.now ≡ word_value other.now) }
    {
        self.number() == other.number()
    }
}

impl Eq for Word {
    ghost laws = { Prim.search (comparing, rules) };
}

// The canonical number in decimal.
impl fmt::Display for Word {
    ghost output = { λ x. Some (decimal (word_value x).0) };

    fn fmt<W: fmt::Write>(&self, f: &mut fmt::Formatter<W>) -> fmt::Result {
        let number = self.number();
        write!(f, "{number}")
    }
}

// Written as by Display, as residues are; by hand, since a derive would print the name of the number held.
impl fmt::Debug for Word {
    fn fmt<W: fmt::Write>(&self, f: &mut fmt::Formatter<W>) -> fmt::Result {
        let number = self.number();
        write!(f, "{number}")
    }
}
