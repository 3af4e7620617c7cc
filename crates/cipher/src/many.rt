// Many blocks at once, one way or the other: groups of 64 side by side, the last one filled up where that is quicker, and what is then left
// over one by one.
ghost use Rattle.std.specs.Prelude.{◌≡◌, ◌≤◌};
ghost use Rattle.blockwise.specs.Blocks.{each_block};
ghost use Rattle.turns.specs.Turns.{ciphered};

use rounds::Cipher;

// How many of w blocks go in groups: a last group is filled up where that is quicker than its blocks one by one, from 8 on.
fn in_groups(w: usize) -> usize
    ensures { result ≤ w }
{
    let left = w % 64;
    if left < 8 {
        return w - left;
    }
    w
}

// Every whole block that both slices have, each in place under its own tweak.
pub fn all(ahead: bool, k: Cipher, n: usize, key: [u8; 16], tweaks: &[u8], blocks: &mut [u8])
    requires { n ≤ 14 }
    ensures { blocks.new ≡ each_block (ciphered ahead k n key) tweaks.now blocks.old }
{
    let g = in_groups(blockwise::whole(tweaks.len(), blocks.len()));
    if g == 0 {
        masked::all(ahead, k, n, key, tweaks, blocks);
        return;
    }
    groups::first(ahead, k, n, key, tweaks, blocks, g);
    let at = 16 * g;
    masked::all(ahead, k, n, key, &tweaks[at..], &mut blocks[at..]);
}
