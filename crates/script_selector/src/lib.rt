// The lines of a script that call the selector: weights of a point, the selector's table, and its value.
#![tactic(auto)]

mod answering;
mod call;
mod cells;
mod fault;
mod grammar;
mod reply;

pub use answering::answer;
