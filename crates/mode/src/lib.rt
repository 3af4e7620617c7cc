// The header's sum and the tag. They serve the crates above, which have tested suite, nonce and limits.
#![tactic(auto)]

pub mod header;
pub mod tag;
