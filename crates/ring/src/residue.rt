// Residues: numbers below 15 · 2^27 + 1, a prime.
ghost use Rattle.std.specs.Prelude.{◌≡◌, ◌==◌, Some, decimal, Decides};
ghost use Rattle.std.proofs.Common.{ap, lit<, lit≤, rules};
ghost use Rattle.ring.specs.Bytes.{eight};
ghost use Rattle.ring.specs.Kinds.{residues, residue_of, residue_value, prime};
ghost use Rattle.ring.specs.Remainders.{modular_laws};
ghost use Rattle.ring.specs.Spellings.{same_below};
ghost use Rattle.std.specs.Cmp.Rules.{comparing};
ghost use Rattle.std.specs.Cmp as Keys;

use crate::coefficient::Coefficient;
use crate::fault::RingError;
use crate::kind::Ring;
use crate::number::{number_of, put_number};
use std::fmt;

// The number of residues.
pub const MODULUS: u32 = 2013265921;

// Whatever number it holds, a residue stands for the remainder of that number.
#[repr(C)]
#[derive(Clone, Copy)]
pub struct Residue {
    number: u32,
}

impl Residue {
    // The residue that a number leaves.
    pub fn new(number: u64) -> Residue
        ensures { residue_value result ≡ residue_of number }
    {
        Residue {
            number: (number % MODULUS as u64) as u32,
        }
    }

    // The canonical number, below the modulus.
    pub fn number(self) -> u32
        ensures { result ≡ (residue_value self).0 }
    {
        self.number % MODULUS
    }
}

impl Ring for Residue {
    ghost ops = { residues };

    ghost value = { residue_value };

    ghost lawful = { modular_laws prime (lit< tt) };

    fn zero() -> Residue {
        Residue { number: 0 }
    }

    fn one() -> Residue {
        Residue { number: 1 }
    }

    fn plus(self, other: Residue) -> Residue {
        Residue::new(self.number as u64 + other.number as u64)
    }

    fn minus(self, other: Residue) -> Residue {
        // three times the modulus is above every number that a residue holds
        Residue::new(self.number as u64 + (3 * MODULUS as u64 - other.number as u64))
    }

    fn times(self, other: Residue) -> Residue {
        Residue::new(self.number as u64 * other.number as u64)
    }

    fn from_bool(set: bool) -> Residue {
        Residue { number: set as u32 }
    }
}

// Each body is one call, as for words: one impl for both kinds would overlap with that for pairs.
impl Coefficient for Residue {
    ghost width = { 8 };

    ghost spelling = { λ x. eight (residue_value x).0 };

    ghost sized = { Prim.search rules };

    ghost determined = { λ x y same. ap (λ v. eight v.0) same };

    ghost distinct = { λ x y same. same_below (lit≤ tt) (residue_value x) (residue_value y) same };

    fn byte_length() -> usize {
        8
    }

    fn encode(self, bytes: &mut [u8]) -> Result<usize, RingError> {
        put_number(self.number() as u64, bytes)
    }

    fn read(bytes: &[u8]) -> Option<Residue> {
        let number = u32::try_from(number_of(bytes)?).ok()?;
        (number < MODULUS).then_some(Residue { number })
    }
}

// Equal where the values are; by hand, since a derive would compare the numbers held, which may be above the modulus.
impl PartialEq for Residue {
    ghost eq = { λ x y. (residue_value x).0 == (residue_value y).0 };

    ghost laws = { Keys.partial_equiv_from_equiv (Prim.search (comparing, rules)) };

    fn eq(&self, other: &Residue) -> bool
        ensures answer { result ≡ ((residue_value self.now).0 == (residue_value other.now).0) }
        ensures decided { Decides result (residue_value self.now ≡ residue_value other.now) }
    {
        self.number() == other.number()
    }
}

impl Eq for Residue {
    ghost laws = { Prim.search (comparing, rules) };
}

// The canonical number in decimal.
impl fmt::Display for Residue {
    ghost output = { λ x. Some (decimal (residue_value x).0) };

    fn fmt<W: fmt::Write>(&self, f: &mut fmt::Formatter<W>) -> fmt::Result {
        let number = self.number();
        write!(f, "{number}")
    }
}

// Written as by Display; by hand, since a derive would print the number held, which may be above the modulus.
impl fmt::Debug for Residue {
    fn fmt<W: fmt::Write>(&self, f: &mut fmt::Formatter<W>) -> fmt::Result {
        let number = self.number();
        write!(f, "{number}")
    }
}
