// The library for callers in C and Rust: numbers, slices of numbers and slices of ring elements.
#![tactic(auto)]

mod elements;
mod entry;
mod layouts;
mod reading;
mod refusal;
mod selecting;
