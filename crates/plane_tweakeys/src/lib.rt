// What is added to sixty-four states side by side: round constants, the key and the tweakeys. A function with a precondition serves our own
// crates.
#![tactic(auto)]

pub mod sharing;
pub mod sums;
pub mod tweakeys;
