// Layouts that the examples are over.
use layout::{JaggedLayout, JaggedLayoutError};

pub(crate) fn laid(
    row_variables: usize,
    heights: &[usize],
) -> Result<JaggedLayout, JaggedLayoutError> {
    let mut layout = JaggedLayout::empty();
    layout.new(row_variables, heights)?;
    Ok(layout)
}
