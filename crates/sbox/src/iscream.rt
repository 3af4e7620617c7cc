// iScream's S-box on the eight rows, its own inverse: Algorithm 5 of the paper, with t3 and t1 of each round as the table has them.
ghost use Rattle.std.specs.Prelude.{◌≡◌, ℕ, ◌^◌, ◌<◌, get_or, map};
ghost use Rattle.sbox.specs.Sbox;

use crate::word::Word;

// The S-box on as many columns as the words are wide.
pub fn circuit<W: Word>(w: [W; 8]) -> [W; 8]
    requires { (i : ℕ) → get_or (map W.number w) i 0 < 2 ^ W.width }
    ensures { map W.number result ≡ Sbox.layer_at W.width Sbox.iscream (map W.number w) }
{
    let [
        mut w0,
        mut w1,
        mut w2,
        mut w3,
        mut w4,
        mut w5,
        mut w6,
        mut w7,
    ] = w;
    // First 4-bit S-box
    let t0 = (w4 & w5) ^ w6;
    let t2 = (w6 | w5) ^ w7;
    let t3 = (t0 & w7) ^ w4; // printed: t0 ^ w4
    let t1 = (t2 & w4) ^ w5; // printed: (t3 & w4) ^ w5
    w0 = w0 ^ t0;
    w1 = w1 ^ t1;
    w2 = w2 ^ t2;
    w3 = w3 ^ t3;
    // Second 4-bit S-box
    let t0 = (w0 & w1) ^ w2;
    let t2 = (w2 | w1) ^ w3;
    let t3 = (t0 & w3) ^ w0;
    let t1 = (t2 & w0) ^ w1;
    w4 = w4 ^ t0;
    w5 = w5 ^ t1;
    w6 = w6 ^ t2;
    w7 = w7 ^ t3;
    // Third 4-bit S-box
    let t0 = (w4 & w5) ^ w6;
    let t2 = (w6 | w5) ^ w7;
    let t3 = (t0 & w7) ^ w4;
    let t1 = (t2 & w4) ^ w5;
    w0 = w0 ^ t0;
    w1 = w1 ^ t1;
    w2 = w2 ^ t2;
    w3 = w3 ^ t3;
    [w0, w1, w2, w3, w4, w5, w6, w7]
}

// The S-box on all sixteen columns of a state.
#[tactic(auto, using(crate::proofs::Words::of_state))]
pub fn layer(w: [u16; 8]) -> [u16; 8]
    ensures { result ≡ Sbox.layer Sbox.iscream w }
{
    circuit(w)
}
