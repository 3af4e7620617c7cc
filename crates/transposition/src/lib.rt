// Squares of 64 times 64 bits turned: bit k of word n of a square goes to bit n of its word k. A function with a precondition serves our own crates.
#![tactic(auto)]

pub mod between;
pub mod turning;
pub mod within;
