// What the programs vectors, known and ciphertext_part write to standard output.
#![tactic(auto)]

use std::io;
use suites::refusal::Refusal;

pub fn text(rt: &impl Print, s: &[u8]) -> io::Result<()> {
    rt.write_all(s)
}

// A number in decimal digits.
pub fn number(rt: &impl Print, n: u64) -> io::Result<()> {
    print!(rt; "{n}")
}

// A refusal by its number.
pub fn refusal(rt: &impl Print, why: Refusal) -> io::Result<()> {
    text(rt, b"refused:")?;
    number(rt, why.number() as u64)
}
