// The fault that a ring call gives.
ghost use Rattle.std.specs.Prelude.{◌≡◌, Some};
ghost use Rattle.ring.specs.Numbers.{ring_number};
ghost use Rattle.ring.specs.Texts.{ring_fault_fields};

use std::error::Error;
use std::fmt;

#[derive(Clone, Copy, PartialEq, Eq, Debug)]
pub enum RingError {
    // the caller's bytes are fewer than an element has; `required` is told as at most 2^64 - 1
    BufferTooShort { required: usize, available: usize },
}

impl RingError {
    // The number that the fault goes by, in the C interface and in the records of a run.
    pub fn number(&self) -> u8
        ensures { result ≡ ring_number self.now }
    {
        match self {
            RingError::BufferTooShort { .. } => 18,
        }
    }
}

// The name and the fields.
impl fmt::Display for RingError {
    ghost output = { λ f. Some (ring_fault_fields f) };

    fn fmt<W: fmt::Write>(&self, f: &mut fmt::Formatter<W>) -> fmt::Result {
        match self {
            RingError::BufferTooShort {
                required,
                available,
            } => write!(
                f,
                "BufferTooShort required={required} available={available}"
            ),
        }
    }
}

impl Error for RingError {}
