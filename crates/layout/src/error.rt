// The faults of a layout.
ghost use Rattle.std.specs.Prelude.{◌≡◌, Some};
ghost use Rattle.layout.specs.Faults.{fault_number};
ghost use Rattle.layout.specs.Texts.{layout_fault_fields};

use std::error::Error;
use std::fmt;

#[derive(Clone, Copy, Debug, PartialEq, Eq)]
pub enum JaggedLayoutError {
    // No column is given.
    NoColumns,
    // A column point addresses a power of two.
    ColumnCountNotPowerOfTwo {
        columns: usize,
    },
    TooManyColumns {
        columns: usize,
        maximum: usize,
    },
    // Two to the row variables is no machine index.
    RowVariablesOverflow {
        variables: usize,
    },
    // A column is taller than two to the row variables.
    HeightExceedsRowBound {
        column: usize,
        height: usize,
        maximum: usize,
    },
    // With this column the area is no machine index.
    AreaOverflow {
        column: usize,
    },
    // No power of two that is a machine index covers the area.
    DenseAreaOverflow {
        area: usize,
    },
    // Two to the dense variables is no machine index.
    DenseVariablesOverflow {
        variables: usize,
    },
    BufferTooShort {
        required: usize,
        available: usize,
    },
    NoSuchColumn {
        column: usize,
        columns: usize,
    },
}

impl JaggedLayoutError {
    // The number that the fault has in the C interface and in every record of a run.
    pub fn number(&self) -> u8
        ensures { result ≡ fault_number self.now }
    {
        match self {
            JaggedLayoutError::NoColumns => 1,
            JaggedLayoutError::ColumnCountNotPowerOfTwo { .. } => 2,
            JaggedLayoutError::TooManyColumns { .. } => 3,
            JaggedLayoutError::RowVariablesOverflow { .. } => 4,
            JaggedLayoutError::HeightExceedsRowBound { .. } => 5,
            JaggedLayoutError::AreaOverflow { .. } => 6,
            JaggedLayoutError::DenseAreaOverflow { .. } => 7,
            JaggedLayoutError::DenseVariablesOverflow { .. } => 8,
            JaggedLayoutError::BufferTooShort { .. } => 18,
            JaggedLayoutError::NoSuchColumn { .. } => 20,
        }
    }
}

// The name and the fields.
impl fmt::Display for JaggedLayoutError {
    ghost output = { λ f. Some (layout_fault_fields f) };

    fn fmt<W: fmt::Write>(&self, f: &mut fmt::Formatter<W>) -> fmt::Result {
        match self {
            Self::NoColumns => write!(f, "NoColumns"),
            Self::ColumnCountNotPowerOfTwo { columns } => {
                write!(f, "ColumnCountNotPowerOfTwo columns={columns}")
            }
            Self::TooManyColumns { columns, maximum } => {
                write!(f, "TooManyColumns columns={columns} maximum={maximum}")
            }
            Self::RowVariablesOverflow { variables } => {
                write!(f, "RowVariablesOverflow variables={variables}")
            }
            Self::HeightExceedsRowBound {
                column,
                height,
                maximum,
            } => write!(
                f,
                "HeightExceedsRowBound column={column} height={height} maximum={maximum}"
            ),
            Self::AreaOverflow { column } => write!(f, "AreaOverflow column={column}"),
            Self::DenseAreaOverflow { area } => write!(f, "DenseAreaOverflow area={area}"),
            Self::DenseVariablesOverflow { variables } => {
                write!(f, "DenseVariablesOverflow variables={variables}")
            }
            Self::BufferTooShort {
                required,
                available,
            } => write!(
                f,
                "BufferTooShort required={required} available={available}"
            ),
            Self::NoSuchColumn { column, columns } => {
                write!(f, "NoSuchColumn column={column} columns={columns}")
            }
        }
    }
}

impl Error for JaggedLayoutError {}
