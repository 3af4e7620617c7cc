// Scream's S-box on the eight rows: Algorithm 3 of the paper.
ghost use Rattle.std.specs.Prelude.{◌≡◌, ℕ, ◌^◌, ◌<◌, get_or, map};
ghost use Rattle.sbox.specs.Sbox;

use crate::word::Word;

// The S-box on as many columns as the words are wide.
pub fn circuit<W: Word>(w: [W; 8]) -> [W; 8]
    requires { (i : ℕ) → get_or (map W.number w) i 0 < 2 ^ W.width }
    ensures { map W.number result ≡ Sbox.layer_at W.width Sbox.scream (map W.number w) }
{
    let [
        mut w0,
        mut w1,
        mut w2,
        mut w3,
        mut w4,
        mut w5,
        mut w6,
        mut w7,
    ] = w;
    // First 5-bit S-box
    w2 = w2 ^ (w0 & w1);
    w1 = w1 ^ w2;
    w3 = w3 ^ (w0 & w4);
    w2 = w2 ^ w3;
    w0 = w0 ^ (w3 & w1);
    w4 = w4 ^ w1;
    w1 = w1 ^ (w2 & w4);
    w1 = w1 ^ w0;
    // Extend-Xor
    w0 = w0 ^ w5;
    w1 = w1 ^ w6;
    w2 = w2 ^ w7;
    // Constant
    w3 = !w3;
    w4 = !w4;
    // First 3-bit S-box
    let t5 = w5;
    let t6 = w6;
    let t7 = w7;
    w5 = w5 ^ (!t6 & t7);
    w6 = w6 ^ (!t7 & t5);
    w7 = w7 ^ (!t5 & t6);
    // Truncate-Xor
    w5 = w0 ^ w5;
    w6 = w1 ^ w6;
    w7 = w2 ^ w7;
    // Second 5-bit S-box
    w2 = w2 ^ (w0 & w1);
    w1 = w1 ^ w2;
    w3 = w3 ^ (w0 & w4);
    w2 = w2 ^ w3;
    w0 = w0 ^ (w3 & w1);
    w4 = w4 ^ w1;
    w1 = w1 ^ (w2 & w4);
    w1 = w1 ^ w0;
    [w0, w1, w2, w3, w4, w5, w6, w7]
}

// The S-box on all sixteen columns of a state.
#[tactic(auto, using(crate::proofs::Words::of_state))]
pub fn layer(w: [u16; 8]) -> [u16; 8]
    ensures { result ≡ Sbox.layer Sbox.scream w }
{
    circuit(w)
}
