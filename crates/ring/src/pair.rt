// Pairs a + b·u over any ring, where u·u is the one below added eleven times.
ghost use Rattle.std.specs.Prelude.{◌≡◌, ◌+◌, ◌++◌, Some, codes};
ghost use Rattle.std.specs.Fmt.{option_append};
ghost use Rattle.std.proofs.Common.{sym, ◌∙◌, arith, length-append, rules};
ghost use Rattle.ring.specs.Extension.{pairs, copies};
ghost use Rattle.ring.specs.Extensions.{extension_laws, both};
ghost use Rattle.ring.specs.Halves.{same_front, same_back};

use crate::coefficient::Coefficient;
use crate::fault::RingError;
use crate::kind::Ring;
use std::fmt;

#[derive(Clone, Copy, PartialEq, Eq)]
pub struct Pair<R> {
    pub a: R,
    pub b: R,
}

// x added eleven times, by five additions
fn eleven_times<R: Ring>(x: R) -> R
    ensures { R.Ring.value result ≡ copies R.Ring.ops 11 (R.Ring.value x) }
{
    let two = x.plus(x);
    let four = two.plus(two);
    let five = four.plus(x);
    let ten = five.plus(five);
    ten.plus(x)
}

impl<R: Ring> Ring for Pair<R> {
    ghost ops = { pairs R.Ring.ops };

    ghost value = { λ x. (R.Ring.value x.a, R.Ring.value x.b) };

    ghost lawful = { extension_laws R.Ring.ops (copies R.Ring.ops 11 R.Ring.ops.one) R.Ring.lawful };

    fn zero() -> Pair<R> {
        Pair {
            a: R::zero(),
            b: R::zero(),
        }
    }

    fn one() -> Pair<R> {
        Pair {
            a: R::one(),
            b: R::zero(),
        }
    }

    fn plus(self, other: Pair<R>) -> Pair<R> {
        Pair {
            a: self.a.plus(other.a),
            b: self.b.plus(other.b),
        }
    }

    fn minus(self, other: Pair<R>) -> Pair<R> {
        Pair {
            a: self.a.minus(other.a),
            b: self.b.minus(other.b),
        }
    }

    fn times(self, other: Pair<R>) -> Pair<R> {
        let square = eleven_times(self.b.times(other.b));
        Pair {
            a: self.a.times(other.a).plus(square),
            b: self.a.times(other.b).plus(self.b.times(other.a)),
        }
    }

    fn from_bool(set: bool) -> Pair<R> {
        Pair {
            a: R::from_bool(set),
            b: R::zero(),
        }
    }
}

// The bytes of a, then those of b.
impl<R: Coefficient> Coefficient for Pair<R> {
    ghost width = { R.Coefficient.width + R.Coefficient.width };

    ghost spelling = { λ x. R.Coefficient.spelling x.a ++ R.Coefficient.spelling x.b };

    ghost sized = { λ x.
        let sized = R.Coefficient.sized in
        omega (arith, length-append (R.Coefficient.spelling x.a) (R.Coefficient.spelling x.b), sized x.a, sized x.b) };

    ghost determined = { Prim.search rules };

    ghost distinct = { λ x y same.
        let m = R.Coefficient in
        let long = m.sized x.a ∙ sym (m.sized y.a) in
        both (m.distinct x.a y.a (same_front _ _ _ _ long same)) (m.distinct x.b y.b (same_back _ _ _ _ long same)) };

    fn byte_length() -> usize {
        let half = R::byte_length();
        half.saturating_add(half)
    }

    fn encode(self, bytes: &mut [u8]) -> Result<usize, RingError> {
        let half = R::byte_length();
        let required = half.saturating_add(half);
        let available = bytes.len();
        // No slice has as many as 2^64 - 1 bytes.
        if available < required {
            return Err(RingError::BufferTooShort {
                required,
                available,
            });
        }
        let (front, back) = bytes.split_at_mut(half);
        self.a.encode(front)?;
        self.b.encode(back)?;
        Ok(required)
    }

    fn read(bytes: &[u8]) -> Option<Pair<R>> {
        // Another length is refused before any part is read, however many parts there are.
        if bytes.len() != Self::byte_length() {
            return None;
        }
        let (front, back) = bytes.split_at_checked(R::byte_length())?;
        Some(Pair {
            a: R::read(front)?,
            b: R::read(back)?,
        })
    }
}

// The two parts with a comma between them.
impl<R: fmt::Display> fmt::Display for Pair<R> {
    ghost output = { λ x. option_append (R.Display.output x.a) (option_append (Some (codes ",")) (R.Display.output x.b)) };

    fn fmt<W: fmt::Write>(&self, f: &mut fmt::Formatter<W>) -> fmt::Result {
        let a = &self.a;
        let b = &self.b;
        write!(f, "{a},{b}")
    }
}

// The two parts as they write themselves, with a comma between them; by hand, since a derive would print their names.
impl<R: fmt::Debug> fmt::Debug for Pair<R> {
    fn fmt<W: fmt::Write>(&self, f: &mut fmt::Formatter<W>) -> fmt::Result {
        let a = &self.a;
        let b = &self.b;
        write!(f, "{a:?},{b:?}")
    }
}
