// Ring elements as a script writes them: by the numbers that they are made of.
ghost use Rattle.std.specs.Prelude.{◌≡◌, ℕ, ◌+◌, ◌<◌, List, ◌++◌, length, take, drop, Some, codes, decimal, MatchOption, ◌≢◌, slice_index};
ghost use Rattle.std.proofs.Common.{ap, rules};
ghost use Rattle.ring.specs.Coefficients.{told as told_width};
ghost use Rattle.ring.specs.Kinds.{residue_of, residue_value, word_of, word_value};

use ring::{Coefficient, Pair, Residue, Word};
use std::fmt::Display;

// A ring kind whose elements are given by so many numbers.
pub trait Element: Coefficient + Display {
    // how many numbers an element is made of
    ghost parts: { ℕ };

    // an element is that of these numbers
    ghost numbered: { List ℕ → Self → Type 0 };

    // how an element is printed
    ghost text: { Self → List ℕ };

    // How many numbers an element is made of, told as at most 2^64 - 1.
    fn parts() -> usize
        ensures { result ≡ told_width parts };

    // The element of these numbers; none where there are too many or too few.
    fn of(numbers: &[usize]) -> Option<Self>
        ensures { MatchOption result (length numbers.now ≢ parts) (λ x. (length numbers.now ≡ parts) × numbered numbers.now x) };

    ghost some: { 0 < parts };

    ghost shows: { (x : Self) → Self.Display.output x ≡ Some (text x) };

    // the text is determined by the value
    ghost determined: { (x y : Self) → Self.Ring.value x ≡ Self.Ring.value y → text x ≡ text y };

    // and the value by the numbers
    ghost alike: { (ns : List ℕ) (x y : Self) → numbered ns x → numbered ns y → Self.Ring.value x ≡ Self.Ring.value y };
}

// The number of a list that has no other.
fn only(numbers: &[usize]) -> Option<u64>
    ensures { MatchOption result (length numbers.now ≢ 1) (λ n. (length numbers.now ≡ 1) × (n ≡ slice_index numbers.now 0)) }
{
    let [number] = numbers else {
        return None;
    };
    Some(*number as u64)
}

// Residues and words have an impl each: one for both would overlap with that for pairs.
impl Element for Residue {
    ghost parts = { 1 };

    ghost numbered = { λ ns x. residue_value x ≡ residue_of (slice_index ns 0) };

    ghost text = { λ x. decimal (residue_value x).0 };

    ghost some = { Prim.search rules };

    ghost shows = { Prim.search rules };

    ghost determined = { λ x y e. ap (λ v. decimal v.0) e };

    ghost alike = { Prim.search rules };

    fn parts() -> usize {
        1
    }

    fn of(numbers: &[usize]) -> Option<Residue> {
        Some(Residue::new(only(numbers)?))
    }
}

impl Element for Word {
    ghost parts = { 1 };

    ghost numbered = { λ ns x. word_value x ≡ word_of (slice_index ns 0) };

    ghost text = { λ x. decimal (word_value x).0 };

    ghost some = { Prim.search rules };

    ghost shows = { Prim.search rules };

    ghost determined = { λ x y e. ap (λ v. decimal v.0) e };

    ghost alike = { Prim.search rules };

    fn parts() -> usize {
        1
    }

    fn of(numbers: &[usize]) -> Option<Word> {
        Some(Word::new(only(numbers)?))
    }
}

// The numbers of a, then those of b.
impl<R: Element> Element for Pair<R> {
    ghost parts = { R.Element.parts + R.Element.parts };

    ghost numbered = { λ ns x. R.Element.numbered (take R.Element.parts ns) x.a × R.Element.numbered (drop R.Element.parts ns) x.b };

    ghost text = { λ x. R.Element.text x.a ++ (codes "," ++ R.Element.text x.b) };

    ghost some = { Prim.search rules };

    ghost shows = { Prim.search rules };

    ghost determined = { Prim.search rules };

    ghost alike = { λ ns x y p q t. (R.Element.alike _ x.a y.a p.0 q.0 t, R.Element.alike _ x.b y.b p.1 q.1 t) };

    fn parts() -> usize {
        R::parts().saturating_add(R::parts())
    }

    fn of(numbers: &[usize]) -> Option<Pair<R>> {
        let (first, second) = numbers.split_at(numbers.len() / 2);
        let a = R::of(first)?;
        let b = R::of(second)?;
        Some(Pair { a, b })
    }
}
