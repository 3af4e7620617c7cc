// Sixty-four states side by side: blocks read into planes, and planes written as blocks. A function with a precondition serves our own crates,
// which know what it asks.
#![tactic(auto)]

pub mod columns;
pub mod loading;
pub mod storing;
