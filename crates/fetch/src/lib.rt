// Fetching one unit of a book.
#![tactic(auto)]

pub mod unit;
