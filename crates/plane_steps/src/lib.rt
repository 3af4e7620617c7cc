// Rounds and turns of sixty-four states side by side, one way or the other. A function with a precondition serves our own crates.
#![tactic(auto)]

ghost use Rattle.std.specs.Prelude.{cond, ◌≤◌, ◌<◌};
ghost use Rattle.lbox.specs.Lbox;
ghost use Rattle.sbox.specs.Sbox;
ghost use Rattle.planes.specs.Planes.{Shaped, Goes};
ghost use Rattle.rounds.specs.Cipher.{parts};
ghost use Rattle.state.specs.Rows.{add_rows};
ghost use Rattle.turns.specs.Turns.{round_by, two_rounds, turns};
ghost use Rattle.plane_steps.specs.Picked.{tweakeys_of};

use rounds::Cipher;

// `ahead` stays a bool: it is handed through as the Bool of the definitions that cipher's contracts cite. A type parameter on each of these functions
// would say no more, and compile the rounds of sixty-four states twice.

// The two layers stay two functions: a match each over boxes of their own, of another crate each; one function would be given all six.

// The S-box layer of a cipher, enciphering or deciphering.
fn sbox_layer(ahead: bool, k: Cipher, x: &mut [[u64; 16]; 8])
    requires { Shaped x.old }
    ensures { Goes (λ b. Sbox.layer (cond ahead (parts k).sbox (parts k).sbox_inverse)) x.old x.new }
{
    match (k, ahead) {
        (Cipher::Scream, true) => plane_sbox::scream::layer(x),
        (Cipher::Scream, false) => plane_sbox::scream_inverse::layer(x),
        (Cipher::IScream, _) => plane_sbox::iscream::layer(x),
    }
}

// The L-box layer likewise.
fn lbox_layer(ahead: bool, k: Cipher, x: &mut [[u64; 16]; 8])
    requires { Shaped x.old }
    ensures { Goes (λ b. Lbox.layer (cond ahead (parts k).lbox (parts k).lbox_inverse)) x.old x.new }
{
    match (k, ahead) {
        (Cipher::Scream, true) => plane_lbox::scream::layer(x),
        (Cipher::Scream, false) => plane_lbox::scream_inverse::layer(x),
        (Cipher::IScream, _) => plane_lbox::iscream::layer(x),
    }
}

// One round with the constant c, or that round undone.
fn round(ahead: bool, k: Cipher, x: &mut [[u64; 16]; 8], c: u16)
    requires { Shaped x.old }
    ensures { Goes (λ b. round_by ahead (parts k) c) x.old x.new }
{
    if ahead {
        sbox_layer(ahead, k, x);
        plane_tweakeys::sums::add_constant(x, c);
        lbox_layer(ahead, k, x);
    } else {
        lbox_layer(ahead, k, x);
        plane_tweakeys::sums::add_constant(x, c);
        sbox_layer(ahead, k, x);
    }
}

// The two rounds of the step s, or these undone, the second first.
fn two_rounds(ahead: bool, k: Cipher, x: &mut [[u64; 16]; 8], s: usize)
    requires { Shaped x.old
        × (s < 14) }
    ensures { Goes (λ b. two_rounds ahead (parts k) s) x.old x.new }
{
    let first = turns::constant(2 * s + 1);
    let second = turns::constant(2 * s + 2);
    if ahead {
        round(ahead, k, x, first);
        round(ahead, k, x, second);
    } else {
        round(ahead, k, x, second);
        round(ahead, k, x, first);
    }
}

// The tweakeys of step s added, of three, or of the first two, in turn.
fn add_tweakey(k: Cipher, x: &mut [[u64; 16]; 8], tweakeys: &[[[u64; 16]; 8]; 3], s: usize)
    ensures { Goes (λ b w. add_rows w (tweakeys_of k tweakeys.now b s)) x.old x.new }
{
    match k {
        Cipher::Scream => plane_tweakeys::sums::add(x, &tweakeys[s % 3]),
        Cipher::IScream => plane_tweakeys::sums::add(x, &tweakeys[s % 2]),
    }
}

// A tweakey added, and n turns: all the steps, or all of them undone.
pub fn turns(
    ahead: bool,
    k: Cipher,
    n: usize,
    x: &mut [[u64; 16]; 8],
    tweakeys: &[[[u64; 16]; 8]; 3],
)
    requires { n ≤ 14 }
    ensures { Goes (λ b. turns ahead (parts k) (tweakeys_of k tweakeys.now b) n n) x.old x.new }
{
    add_tweakey(k, x, tweakeys, turns::key_before(ahead, n));
    for i in 0..n {
        let s = turns::step_at(ahead, n, i);
        two_rounds(ahead, k, x, s);
        add_tweakey(k, x, tweakeys, turns::key_behind(ahead, s));
    }
}
