// Reading a trace: record tables over the caller's memory, the dense vector that they are written to, and the witness.
#![tactic(auto)]

mod account;
mod block;
mod fault;
mod find;
mod leaf;
mod leaves;
mod ordered;
mod piece;
mod read;
mod record;
mod report;
mod table;
mod text;
mod walk;
mod witness;
mod write;

pub use account::IngestReport;
pub use fault::{JaggedIngestError, LeafError};
pub use piece::{piece_height, write_piece};
pub use read::read_columns;
pub use record::{ConversionPass, MAX_RECORDS, Record};
pub use table::{check_order, height, heights, pass};
pub use witness::{read_committed, witness_of_buffer, witness_of_vector};
