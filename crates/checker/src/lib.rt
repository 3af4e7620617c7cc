// Reading a book: check.
#![tactic(auto)]

pub mod check;
