// Sealing: SCREAM and iSCREAM, the tweakable authenticated encryption of the CAESAR submission, version 1.
#![tactic(auto)]

pub mod counts;
pub mod seal;
