// Blocks through a whole cipher, one way or the other, with no load that depends on them, the key or the tweak. A function with a precondition
// serves our own crates.
#![tactic(auto)]

ghost use Rattle.std.specs.Prelude.{◌≡◌, ◌≤◌};
ghost use Rattle.blockwise.specs.Blocks.{each_block};
ghost use Rattle.turns.specs.Turns.{ciphered};

use masks::ByMasks;
use rounds::Cipher;
use runs::StepRun;
use steps::{Ahead, Back};

// Every whole block that both slices have, enciphered or deciphered under the tweak at its place.
pub fn all(ahead: bool, k: Cipher, n: usize, key: [u8; 16], tweaks: &[u8], blocks: &mut [u8])
    requires { n ≤ 14 }
    ensures { blocks.new ≡ each_block (ciphered ahead k n key) tweaks.now blocks.old }
{
    let lbox = ByMasks {
        of: steps::lbox_of(ahead, k),
    };
    let r = StepRun {
        done: 0,
        steps: n,
        wanted: true,
    };
    if ahead {
        runs::all(&Ahead { cipher: k, lbox }, r, key, tweaks, blocks);
    } else {
        runs::all(&Back { cipher: k, lbox }, r, key, tweaks, blocks);
    }
}
