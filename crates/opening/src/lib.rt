// Opening what was sealed, and demand 2.
#![tactic(auto)]

pub mod open;
