// Opening without an output, and into a working buffer.
#![tactic(auto)]

pub mod verify;
pub mod within;
