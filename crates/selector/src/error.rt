// The faults of the selector's calls.
ghost use Rattle.std.specs.Prelude.{◌≡◌, Some};
ghost use Rattle.selector.specs.Faults.{fault_number};
ghost use Rattle.selector.specs.FaultText.{selector_fault_fields};

use std::error::Error;
use std::fmt;

#[derive(Clone, Copy, Debug, PartialEq, Eq)]
pub enum JaggedError {
    // The row point has not as many coordinates as there are row variables.
    RowPointWidthMismatch { expected: usize, actual: usize },
    // The column point has not as many coordinates as there are column variables.
    ColumnPointWidthMismatch { expected: usize, actual: usize },
    // The dense point has not as many coordinates as there are dense variables.
    DensePointWidthMismatch { expected: usize, actual: usize },
    // The caller's cells are fewer than the capacity.
    BufferTooShort { required: usize, available: usize },
}

impl JaggedError {
    // The number that the fault goes by.
    pub fn number(&self) -> u8
        ensures { result ≡ fault_number self.now }
    {
        match self {
            JaggedError::BufferTooShort { .. } => 18,
            JaggedError::RowPointWidthMismatch { .. } => 24,
            JaggedError::ColumnPointWidthMismatch { .. } => 25,
            JaggedError::DensePointWidthMismatch { .. } => 26,
        }
    }
}

// The name of the fault and its fields, each after a space.
impl fmt::Display for JaggedError {
    ghost output = { λ fault. Some (selector_fault_fields fault) };

    fn fmt<W: fmt::Write>(&self, f: &mut fmt::Formatter<W>) -> fmt::Result {
        match self {
            JaggedError::RowPointWidthMismatch { expected, actual } => write!(
                f,
                "RowPointWidthMismatch expected={expected} actual={actual}"
            ),
            JaggedError::ColumnPointWidthMismatch { expected, actual } => write!(
                f,
                "ColumnPointWidthMismatch expected={expected} actual={actual}"
            ),
            JaggedError::DensePointWidthMismatch { expected, actual } => write!(
                f,
                "DensePointWidthMismatch expected={expected} actual={actual}"
            ),
            JaggedError::BufferTooShort {
                required,
                available,
            } => write!(
                f,
                "BufferTooShort required={required} available={available}"
            ),
        }
    }
}

impl Error for JaggedError {}
