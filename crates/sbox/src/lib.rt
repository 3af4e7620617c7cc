// The S-box layers of both ciphers, as circuits on rows.
#![tactic(auto)]

// Each box has its circuit, generic over the words, and a line that names it on a state: `layer` is what callers cite, and a trait with a type for
// each box would be longer than these lines. That a word's number is below 2 ^ width is asked, and is no law of `Word`: in a law a variable of an
// integer type ranges over every number.

pub mod column;
pub mod iscream;
pub mod scream;
pub mod scream_inverse;
pub mod word;
