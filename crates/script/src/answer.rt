// What a line of a script gets for an answer.
use layout::{JaggedLayout, JaggedLayoutError};
use ring::RingError;

#[derive(Drop)]
pub enum Answer {
    // the line is no call
    NoCall,
    // accepted, with nothing to tell
    Accepted,
    Layout { layout: JaggedLayout },
    Height { height: usize },
    // how many bytes were written, and the whole buffer
    Written { written: usize, buffer: Vec<u8> },
    ByteLength { length: usize },
    // an element as it is printed
    Element { text: String },
    // bytes that no element has
    NoElement,
    Equal { equal: bool },
    LayoutFault { fault: JaggedLayoutError },
    RingFault { fault: RingError },
}
