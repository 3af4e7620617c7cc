// What stands at a place of a book, behind its opening fields.
#![tactic(auto)]

pub mod frame;
