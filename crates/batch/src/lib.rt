// The cipher calls of a sealing or an opening, put one behind the other and run at once. A function with a precondition serves our own crates,
// which have tested what it asks.
#![tactic(auto)]

pub mod header;
pub mod opening;
pub mod sealing;
pub mod text;
