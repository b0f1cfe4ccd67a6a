// Makes the calls.
ghost use Rattle.std.specs.Prelude.{◌≡◌, IfOk, vec_len, string_bytes};
ghost use Rattle.script.specs.Calls.{said};
ghost use Rattle.script.specs.Records.{told};
ghost use Rattle.script.specs.Replies.{blank, lay_out_reply, height_reply, encode_reply, laid_out, slots_after, Reply};
ghost use Rattle.script.specs.Slots.{slot, Leaves};

use crate::answer::Answer;
use crate::call::Call;
use crate::ringing::ring_answer;
use crate::session::Session;
use std::alloc::{AllocError, Global};

// What a buffer holds before a call.
const BLANK: u8 = 0xee;

// A buffer of so many bytes.
pub(crate) fn blank_buffer(heap: Global, room: usize) -> Result<Vec<u8>, AllocError>
    ensures { IfOk result (λ v. (v.items ≡ blank room) × (vec_len v ≡ room)) }
{
    Vec::from_elem(heap, BLANK, room)
}

// A refusal is an answer here like any other, so each result is matched: the one error is that memory is out.
impl Session {
    // Makes a call. Only an accepted layout changes a slot, its own.
    pub fn make(&mut self, heap: Global, call: Call) -> Result<Answer, AllocError>
        ensures answer { IfOk result (Reply (slot self.old) (said call)) }
        ensures slots { Leaves result self.old self.new (slots_after (slot self.old) (said call)) }
    {
        match call {
            Call::New {
                name,
                row_variables,
                heights,
            } => self.lay_out(name, row_variables, &heights, 0),
            Call::WithMinDenseVariables {
                name,
                row_variables,
                heights,
                minimum,
            } => self.lay_out(name, row_variables, &heights, minimum),
            Call::Show { name } => Ok(Answer::Layout {
                layout: self.held(name.as_str()),
            }),
            Call::ColumnHeight { name, column } => Ok(self.column_height(name.as_str(), column)),
            Call::EncodeLayout { name, room } => self.encode_layout(heap, name.as_str(), room),
            Call::Ring { kind, call } => ring_answer(heap, kind, call),
        }
    }

    fn lay_out(
        &mut self,
        name: String,
        row_variables: usize,
        heights: &[usize],
        minimum: usize,
    ) -> Result<Answer, AllocError>
        ensures answer { IfOk result (λ a. told a ≡ lay_out_reply row_variables heights.now minimum) }
        ensures slots { Leaves result self.old self.new (laid_out (slot self.old) (string_bytes name) row_variables heights.now minimum) }
    {
        let mut layout = self.held(name.as_str());
        match layout.with_min_dense_variables(row_variables, heights, minimum) {
            Ok(()) => {
                self.hold(name, layout)?;
                Ok(Answer::Accepted)
            }
            Err(fault) => Ok(Answer::LayoutFault { fault }),
        }
    }

    fn column_height(&self, name: &str, column: usize) -> Answer
        ensures { told result ≡ height_reply (slot self.now name.now) column }
    {
        match self.held(name).column_height(column) {
            Ok(height) => Answer::Height { height },
            Err(fault) => Answer::LayoutFault { fault },
        }
    }

    fn encode_layout(&self, heap: Global, name: &str, room: usize) -> Result<Answer, AllocError>
        ensures { IfOk result (λ a. told a ≡ encode_reply (slot self.now name.now) room) }
    {
        let layout = self.held(name);
        let mut buffer = blank_buffer(heap, room)?;
        match layout.encode_layout(&mut buffer) {
            Ok(written) => Ok(Answer::Written { written, buffer }),
            Err(fault) => Ok(Answer::LayoutFault { fault }),
        }
    }
}
