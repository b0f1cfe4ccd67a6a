// One line of a script: which call its words say, and the record of what the call is answered.
#![tactic(auto)]

mod line;

pub use line::step;
