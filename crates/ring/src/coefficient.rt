// Ring elements as bytes of a fixed length.
ghost use Rattle.std.specs.Prelude.{◌≡◌, ℕ, List, length, is_ok, if◌then◌else◌};
ghost use Rattle.ring.specs.Bytes.{over};
ghost use Rattle.ring.specs.Checks.{verdict};
ghost use Rattle.ring.specs.Coefficients.{told, room_checks, ReadBack};

use crate::fault::RingError;
use crate::kind::Ring;

// A ring kind whose values are written as bytes and read again.
pub trait Coefficient: Ring {
    // how many bytes an element has
    ghost width: { ℕ };

    // the bytes of an element
    ghost spelling: { Self → List ℕ };

    // How many bytes an element has, told as at most 2^64 - 1.
    fn byte_length() -> usize
        ensures { result ≡ told width };

    // Writes the bytes of an element at the front of the caller's, and tells how many.
    fn encode(self, bytes: &mut [u8]) -> Result<usize, RingError>
        ensures answer { result ≡ verdict (room_checks width (length bytes.old)) width }
        ensures after { bytes.new ≡ (if is_ok result then over (spelling self) bytes.old else bytes.old) };

    // The element that has just these bytes, or none.
    fn read(bytes: &[u8]) -> Option<Self>
        ensures { ReadBack spelling bytes.now result };

    // every element has that many
    ghost sized: { (x : Self) → length (spelling x) ≡ width };

    // the bytes are determined by the value
    ghost determined: { (x y : Self) → Self.Ring.value x ≡ Self.Ring.value y → spelling x ≡ spelling y };

    // and the value by the bytes
    ghost distinct: { (x y : Self) → spelling x ≡ spelling y → Self.Ring.value x ≡ Self.Ring.value y };
}
