// Rounds and steps on the eight rows. What the two ways through a cipher share is written once, over the trait `Way`, and what the two ways of
// computing an L-box layer share over the trait `LBoxLayer`. A function with a precondition serves our own crates, which keep within the fourteen
// steps that a suite has.
#![tactic(auto)]

ghost use Rattle.std.specs.Prelude.{cond, Bool, true, false, List, ℕ, ◌≡◌, ◌+◌, ◌*◌, ◌-◌, ◌≤◌, ◌<◌, get_or};
ghost use Rattle.bits.specs.Table.{tab};
ghost use Rattle.lbox.specs.Lbox;
ghost use Rattle.lbox.specs.Tables.{looked_up};
ghost use Rattle.sbox.specs.Sbox;
ghost use Rattle.tables.specs.LBox.{matrix};
ghost use Rattle.rounds.specs.declared.Cipher.{Cipher};
ghost use Rattle.rounds.specs.Cipher.{parts, constant, add_constant, round, unround};
ghost use Rattle.steps.specs.Ways.{step_by, steps_by};
ghost use Rattle.tweakey.specs.Schedule.{tweakeys_in};
ghost use Rattle.state.specs.State.{rows_of};

use rounds::Cipher;
use state::State;
use tables::{Joined, LBox};
use tweakey::Schedule;

// That a round is at most 28 and a step below 14 is asked at each: a number with its bound as a type would be made and taken apart at every turn.
// `ahead` is a bool as in the definitions that the ciphers' contracts cite, where it is no type.

// The round constants, by round number from 1: Appendix C of the paper.
static CONSTANTS: [u8; 29] = *b"\x00\x1B\x36\x51\x6C\x87\xA2\xBD\
    \xD8\xF3\x0E\x29\x44\x5F\x7A\x95\
    \xB0\xCB\xE6\x01\x1C\x37\x52\x6D\
    \x88\xA3\xBE\xD9\xF4";

// All of them.
pub fn constants() -> [u8; 29]
    ensures { result ≡ tab 29 constant }
{
    CONSTANTS
}

// The constant of a round.
pub fn constant(r: usize) -> u16
    requires { r ≤ 28 }
    ensures { result ≡ constant r }
{
    u16::from(CONSTANTS[r])
}

fn add_constant(w: [u16; 8], c: u16) -> [u16; 8]
    ensures { result ≡ add_constant c w }
{
    let mut x = w;
    x[0] ^= c;
    x
}

// The S-box layer of a cipher, enciphering or deciphering.
#[inline(always)]
pub fn sbox_layer(ahead: bool, k: Cipher, w: [u16; 8]) -> [u16; 8]
    ensures { result ≡ Sbox.layer (cond ahead (parts k).sbox (parts k).sbox_inverse) w }
{
    match (k, ahead) {
        (Cipher::Scream, true) => sbox::scream::layer(w),
        (Cipher::Scream, false) => sbox::scream_inverse::layer(w),
        (Cipher::IScream, _) => sbox::iscream::layer(w),
    }
}

// The L-box of a cipher likewise.
pub fn lbox_of(ahead: bool, k: Cipher) -> LBox
    ensures { matrix result ≡ cond ahead (parts k).lbox (parts k).lbox_inverse }
{
    match (k, ahead) {
        (Cipher::Scream, true) => LBox::Scream,
        (Cipher::Scream, false) => LBox::ScreamInverse,
        (Cipher::IScream, _) => LBox::IScream,
    }
}

// The L-box layer by any two joined tables.
#[inline(always)]
pub fn lbox_layer(w: [u16; 8], low: &[u16; 256], high: &[u16; 256]) -> [u16; 8]
    ensures { result ≡ tab 8 (λ i. looked_up low.now high.now (get_or w i 0)) }
{
    [
        lbox::look_up(w[0], low, high),
        lbox::look_up(w[1], low, high),
        lbox::look_up(w[2], low, high),
        lbox::look_up(w[3], low, high),
        lbox::look_up(w[4], low, high),
        lbox::look_up(w[5], low, high),
        lbox::look_up(w[6], low, high),
        lbox::look_up(w[7], low, high),
    ]
}

// What computes the layer of an L-box.
pub trait LBoxLayer {
    ghost lbox: { Self → List (List ℕ) };

    fn layer(&self, w: [u16; 8]) -> [u16; 8]
        ensures { result ≡ Lbox.layer (lbox self.now) w };
}

// By joined tables.
impl LBoxLayer for Joined<'_> {
    ghost lbox = { λ j. matrix j.of };

    #[inline(always)]
    fn layer(&self, w: [u16; 8]) -> [u16; 8] {
        [
            self.row(w[0]),
            self.row(w[1]),
            self.row(w[2]),
            self.row(w[3]),
            self.row(w[4]),
            self.row(w[5]),
            self.row(w[6]),
            self.row(w[7]),
        ]
    }
}

// A way through a cipher, enciphering or deciphering. The two have their rounds and the tweakey in the other order each, so each writes its own
// step.
pub trait Way {
    ghost ahead: { Bool };

    ghost cipher: { Self → Cipher };

    fn is_ahead() -> bool
        ensures { result ≡ ahead };

    fn cipher(&self) -> Cipher
        ensures { result ≡ cipher self.now };

    // The step where s are done, or that step undone.
    fn step(&self, h: Schedule, s: usize, x: State) -> State
        requires { s < 14 }
        ensures { rows_of result ≡ step_by ahead (parts (cipher self.now)) (tweakeys_in (cipher self.now) h) s (rows_of x) };
}

// Enciphering, with the layer of the cipher's L-box.
#[derive(Drop)]
pub struct Ahead<L: LBoxLayer> {
    pub cipher: Cipher,
    pub lbox: L,
    ghost lbox_is: { L.lbox lbox ≡ (parts cipher).lbox },
}

impl<L: LBoxLayer> Ahead<L> {
    // Round r.
    #[inline(always)]
    fn round(&self, w: [u16; 8], r: usize) -> [u16; 8]
        requires { r ≤ 28 }
        ensures { result ≡ round (parts self.now.cipher) r w }
    {
        let y = sbox_layer(true, self.cipher, w);
        let z = add_constant(y, constant(r));
        self.lbox.layer(z)
    }
}

impl<L: LBoxLayer> Way for Ahead<L> {
    ghost ahead = { true };

    ghost cipher = { λ w. w.cipher };

    fn is_ahead() -> bool {
        true
    }

    fn cipher(&self) -> Cipher {
        self.cipher
    }

    fn step(&self, h: Schedule, s: usize, x: State) -> State {
        let y = self.round(state::rows_of(x), 2 * s + 1);
        let z = self.round(y, 2 * s + 2);
        state::add(state::state_of(z), tweakey::tweakey(self.cipher, h, s + 1))
    }
}

// Deciphering, with the layer of the inverse of the cipher's L-box.
#[derive(Drop)]
pub struct Back<L: LBoxLayer> {
    pub cipher: Cipher,
    pub lbox: L,
    ghost lbox_is: { L.lbox lbox ≡ (parts cipher).lbox_inverse },
}

impl<L: LBoxLayer> Back<L> {
    // Round r undone.
    #[inline(always)]
    fn unround(&self, w: [u16; 8], r: usize) -> [u16; 8]
        requires { r ≤ 28 }
        ensures { result ≡ unround (parts self.now.cipher) r w }
    {
        let y = self.lbox.layer(w);
        let z = add_constant(y, constant(r));
        sbox_layer(false, self.cipher, z)
    }
}

impl<L: LBoxLayer> Way for Back<L> {
    ghost ahead = { false };

    ghost cipher = { λ w. w.cipher };

    fn is_ahead() -> bool {
        false
    }

    fn cipher(&self) -> Cipher {
        self.cipher
    }

    fn step(&self, h: Schedule, s: usize, x: State) -> State {
        let t = tweakey::tweakey(self.cipher, h, s + 1);
        let y = self.unround(state::rows_of(state::add(x, t)), 2 * s + 2);
        let z = self.unround(y, 2 * s + 1);
        state::state_of(z)
    }
}

// n steps where s are done, or these undone, from the last to the first.
pub fn steps<W: Way>(way: &W, s: usize, n: usize, h: Schedule, x: State) -> State
    requires { s + n ≤ 14 }
    ensures { rows_of result ≡ steps_by W.ahead (parts (W.cipher way.now)) (tweakeys_in (W.cipher way.now) h) s n (rows_of x) }
{
    let mut y = x;
    for i in 0..n {
        let done = at(W::is_ahead(), s, n, i);
        y = way.step(h, done, y);
    }
    y
}

// How many steps are done before turn i of n, where s were done or, going back, will be.
fn at(ahead: bool, s: usize, n: usize, i: usize) -> usize
    requires { (i < n)
        × (s + n ≤ 14) }
    ensures { result ≡ cond ahead (s + i) (s + (n - 1 - i)) }
{
    if ahead { s + i } else { s + (n - 1 - i) }
}
