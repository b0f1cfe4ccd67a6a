// The selector: weights of a point, the selector's table, and its value at a dense point.
#![tactic(auto)]

mod automaton;
mod error;
mod evaluation;
mod fitted;
mod point;
mod tables;
mod weights;

pub use error::JaggedError;
pub use evaluation::evaluate;
pub use point::JaggedPoint;
pub use tables::table;
pub use weights::equality_prefix;
