// The lines of a script that call layouts and rings: the words say a call, the call is made, and its answer is written.
#![tactic(auto)]

mod answer;
mod call;
mod cells;
mod element;
mod grammar;
mod line;
mod make;
mod ringing;
mod separated;
mod session;
mod slots;
mod text;

pub use answer::Answer;
pub use call::{Call, Kind, RingCall};
pub use cells::{cell_text, cells_text, elements};
pub use element::Element;
pub use grammar::{parse, ring_kind};
pub use line::{is_skipped, step};
pub use session::Session;
pub use text::{answer_text, joined, record};

// What a script's text is cut by, and why words say no call.
pub use words::{MAX_CELLS, Mark, Unsaid, pieces, words};
