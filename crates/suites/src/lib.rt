// Suites, and the refusals of the whole library.
#![tactic(auto)]

pub mod refusal;
pub mod suite;
