// The text of the selector's faults.
ghost use Rattle.std.specs.Prelude.{◌≡◌, IfOk, string_bytes};
ghost use Rattle.script_selector.specs.Faults.{fault_text};

use selector::JaggedError;
use std::alloc::{AllocError, Global};

// A fault's number and text, as in the crates beside: a trait for faults with numbers would want an impl for each of four.
pub(crate) fn fault_text(heap: Global, fault: &JaggedError) -> Result<String, AllocError>
    ensures { IfOk result (λ s. string_bytes s ≡ fault_text fault.now) }
{
    let number = fault.number();
    format!(in heap; "fault {number} {fault}")
}
