// The rings that a table's cells are of: what a ring is, residues, words and pairs, and their bytes.
#![tactic(auto)]

mod coefficient;
mod fault;
mod kind;
mod number;
mod pair;
mod residue;
mod word;

pub use coefficient::Coefficient;
pub use fault::RingError;
pub use kind::Ring;
pub use pair::Pair;
pub use residue::Residue;
pub use word::Word;

// The number of residues.
pub use residue::MODULUS;
