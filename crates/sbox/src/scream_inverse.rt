// The inverse of Scream's S-box on the eight rows: Algorithm 4 of the paper.
ghost use Rattle.std.specs.Prelude.{◌≡◌, ℕ, ◌^◌, ◌<◌, get_or, map};
ghost use Rattle.sbox.specs.Sbox;

use crate::word::Word;

// The inverse S-box on as many columns as the words are wide.
pub fn circuit<W: Word>(w: [W; 8]) -> [W; 8]
    requires { (i : ℕ) → get_or (map W.number w) i 0 < 2 ^ W.width }
    ensures { map W.number result ≡ Sbox.layer_at W.width Sbox.scream_inverse (map W.number w) }
{
    let [
        mut w0,
        mut w1,
        mut w2,
        mut w3,
        mut w4,
        mut w5,
        mut w6,
        mut w7,
    ] = w;
    // Second 5-bit S-box
    w1 = w1 ^ w0;
    w1 = w1 ^ (w2 & w4);
    w4 = w4 ^ w1;
    w0 = w0 ^ (w3 & w1);
    w2 = w2 ^ w3;
    w3 = w3 ^ (w0 & w4);
    w1 = w1 ^ w2;
    w2 = w2 ^ (w0 & w1);
    // Truncate-Xor
    w7 = w2 ^ w7;
    w6 = w1 ^ w6;
    w5 = w0 ^ w5;
    // First 3-bit S-box
    let t5 = w5;
    let t6 = w6;
    let t7 = w7;
    w5 = w5 ^ (!t6 & t7);
    w6 = w6 ^ (!t7 & t5);
    w7 = w7 ^ (!t5 & t6);
    // Constant
    w4 = !w4;
    w3 = !w3;
    // Extend-Xor
    w2 = w2 ^ w7;
    w1 = w1 ^ w6;
    w0 = w0 ^ w5;
    // First 5-bit S-box
    w1 = w1 ^ w0;
    w1 = w1 ^ (w2 & w4);
    w4 = w4 ^ w1;
    w0 = w0 ^ (w3 & w1);
    w2 = w2 ^ w3;
    w3 = w3 ^ (w0 & w4);
    w1 = w1 ^ w2;
    w2 = w2 ^ (w0 & w1);
    [w0, w1, w2, w3, w4, w5, w6, w7]
}

// The inverse S-box on all sixteen columns of a state.
#[tactic(auto, using(crate::proofs::Words::of_state))]
pub fn layer(w: [u16; 8]) -> [u16; 8]
    ensures { result ≡ Sbox.layer Sbox.scream_inverse w }
{
    circuit(w)
}
