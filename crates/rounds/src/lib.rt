// Both ciphers by definition: tweakeys, rounds and steps. The code of these stands in the crates tweakey, steps and runs.
#![tactic(auto)]

#[derive(Clone, Copy, Debug, PartialEq, Eq, Hash)]
pub enum Cipher {
    Scream,
    IScream,
}
