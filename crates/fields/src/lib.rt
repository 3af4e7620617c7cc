// Fields, numbers, languages and lengths of units.
#![tactic(auto)]

pub mod field;
pub mod number;
pub mod unit;
