// Layouts of heights, and their bytes.
ghost use Rattle.std.specs.Prelude.{◌≡◌, length, IfOk};
ghost use Rattle.layout.specs.Layout.{shape};
ghost use Rattle.layout.specs.Plan.{planned};
ghost use Rattle.export.specs.Calls.{Made, encode_answer};
ghost use Rattle.export.specs.Refusals.{counted};

use crate::refusal::{Refusal, told};
use layout::{JaggedLayout, JaggedLayoutError};

// The layout of these heights, or its fault.
// A struct of the two would be made in each exported call, which C passes them one by one, and taken apart here.
pub(crate) fn layout_of(
    row_variables: usize,
    heights: &[usize],
) -> Result<JaggedLayout, JaggedLayoutError>
    ensures made { Made row_variables heights.now result }
    ensures shape { IfOk result (λ l. shape l ≡ planned row_variables heights.now 0) }
{
    let mut layout = JaggedLayout::empty();
    layout.new(row_variables, heights)?;
    Ok(layout)
}

// Lays out each block of so many heights, and writes its area, until the heights run out.
fn areas_of(
    row_variables: usize,
    columns: usize,
    heights: &[usize],
    areas: &mut [usize],
) -> Result<(), Refusal> {
    let mut layout = JaggedLayout::empty();
    let mut rest = heights;
    for area in areas.iter_mut() {
        let Some(block) = rest.split_off(..columns) else {
            break;
        };
        layout.new(row_variables, block)?;
        *area = layout.area();
    }
    Ok(())
}

// Lays out each block of so many heights, and writes its area; the number of the first fault, or 0.
#[unsafe(no_mangle)]
pub extern "C" fn mossplane_layouts(
    row_variables: usize,
    columns: usize,
    heights: &[usize],
    areas: &mut [usize],
) -> u8 {
    told(areas_of(row_variables, columns, heights, areas))
}

// Writes the layout to the bytes, over and over as often as said, and tells how many it took.
fn encode_rounds(
    row_variables: usize,
    heights: &[usize],
    rounds: usize,
    bytes: &mut [u8],
) -> Result<usize, Refusal>
    ensures { result ≡ encode_answer row_variables heights.now rounds (length bytes.old) }
{
    let layout = layout_of(row_variables, heights)?;
    let mut outcome = Ok(0);
    for round in 0..rounds {
        outcome = layout.encode_layout(bytes);
    }
    Ok(outcome?)
}

// Writes the layout to the bytes, over and over as often as said; how many bytes it took, or 0 if it is refused.
#[unsafe(no_mangle)]
pub extern "C" fn mossplane_encode(
    row_variables: usize,
    heights: &[usize],
    rounds: usize,
    bytes: &mut [u8],
) -> usize
    ensures { result ≡ counted (encode_answer row_variables heights.now rounds (length bytes.old)) }
{
    // The C interface has one number for the count and a refusal.
    encode_rounds(row_variables, heights, rounds, bytes).unwrap_or(0)
}
