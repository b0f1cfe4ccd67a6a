// The lines of a script that speak of tables of records: what they say, the calls of ingest, and their texts.
#![tactic(auto)]

mod call;
mod cells;
mod grammar;
mod line;
mod refusal;
mod table;

pub use line::answer;
