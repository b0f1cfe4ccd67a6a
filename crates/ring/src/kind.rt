// What a ring kind offers, and the laws that it keeps.
ghost use Rattle.std.specs.Prelude.{◌≡◌, if◌then◌else◌};
ghost use Rattle.ring.specs.Operations.{Operations, Laws};

// An element stands for a value; each function computes its operation on values.
pub trait Ring: Copy {
    // the operations on values
    ghost ops: { Operations };

    // the value that an element stands for
    ghost value: { Self → ops.Value };

    fn zero() -> Self
        ensures { value result ≡ ops.nought };

    fn one() -> Self
        ensures { value result ≡ ops.one };

    fn plus(self, other: Self) -> Self
        ensures { value result ≡ ops.plus (value self) (value other) };

    fn minus(self, other: Self) -> Self
        ensures { value result ≡ ops.minus (value self) (value other) };

    fn times(self, other: Self) -> Self
        ensures { value result ≡ ops.times (value self) (value other) };

    fn from_bool(set: bool) -> Self
        ensures { value result ≡ (if set then ops.one else ops.nought) };

    // plus and times are associative and commutative, zero and one are neutral, (a - b) + b is a, and times distributes over plus
    ghost lawful: { Laws ops };
}
