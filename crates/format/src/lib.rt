// A book's format: opening fields, headers, nonces, and what is sealed along.
#![tactic(auto)]

pub mod bytes;
pub mod layout;
