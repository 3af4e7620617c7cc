// The tweakable block ciphers Scream and iScream: one block, one step, and many blocks at once.
#![tactic(auto)]

// A suite, a key and what they are used on stand apart in these signatures: they are the crate's final contracts, which all above it cites.

pub mod block;
pub mod blocks;
mod many;
