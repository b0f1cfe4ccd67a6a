// Numbers in eight bytes, the most significant first.
ghost use Rattle.std.specs.Prelude.{◌≡◌, ◌^◌, ◌<◌, length, is_ok, if◌then◌else◌, MatchOption, ◌≢◌};
ghost use Rattle.ring.specs.Bytes.{eight, over};
ghost use Rattle.ring.specs.Checks.{verdict};
ghost use Rattle.ring.specs.Coefficients.{room_checks};

use crate::fault::RingError;

// Writes a number at the front of the caller's bytes.
pub(crate) fn put_number(number: u64, bytes: &mut [u8]) -> Result<usize, RingError>
    ensures answer { result ≡ verdict (room_checks 8 (length bytes.old)) 8 }
    ensures after { bytes.new ≡ (if is_ok result then over (eight number) bytes.old else bytes.old) }
{
    let available = bytes.len();
    let front = bytes
        .first_chunk_mut::<8>()
        .ok_or(RingError::BufferTooShort {
            required: 8,
            available,
        })?;
    *front = number.to_be_bytes();
    Ok(8)
}

// The number that has these eight bytes.
pub(crate) fn number_of(bytes: &[u8]) -> Option<u64>
    ensures { MatchOption result (length bytes.now ≢ 8) (λ n. (eight n ≡ bytes.now) × (n < 2 ^ 64)) }
{
    let spelled = bytes.as_array::<8>()?;
    Some(u64::from_be_bytes(*spelled))
}
