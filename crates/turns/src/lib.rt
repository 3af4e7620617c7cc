// Both ways through a cipher as one run of turns: the numbers of its rounds and tweakeys. A function with a precondition serves our own crates,
// which keep within the fourteen steps that a suite has.
#![tactic(auto)]

// `ahead` is a bool here and in the crates above: it is the Bool of `ciphered` and of the other definitions that the ciphers' contracts cite.

ghost use Rattle.std.specs.Prelude.{◌≡◌, ◌≤◌, ◌<◌};
ghost use Rattle.rounds.specs.Cipher.{constant};
ghost use Rattle.turns.specs.Turns.{step_at, key_before, key_behind};

// The constant of a round.
pub fn constant(r: usize) -> u16
    requires { r ≤ 28 }
    ensures { result ≡ constant r }
{
    steps::constant(r)
}

// The step of turn i of n.
pub fn step_at(ahead: bool, n: usize, i: usize) -> usize
    requires { i < n }
    ensures { result ≡ step_at ahead n i }
{
    if ahead { i } else { n - 1 - i }
}

// The tweakey before the turns, by its number.
pub fn key_before(ahead: bool, n: usize) -> usize
    ensures { result ≡ key_before ahead n }
{
    if ahead { 0 } else { n }
}

// The tweakey behind the rounds of the step s, by its number.
pub fn key_behind(ahead: bool, s: usize) -> usize
    requires { s < 14 }
    ensures { result ≡ key_behind ahead s }
{
    if ahead { s + 1 } else { s }
}
