// Groups of sixty-four blocks, each block under its own tweak, one way or the other. A function with a precondition serves our own crates.
#![tactic(auto)]

mod way;

ghost use Rattle.std.specs.Prelude.{◌≡◌, ◌+◌, ◌*◌, ◌≤◌, length};
ghost use Rattle.blockwise.specs.Blocks.{each_of};
ghost use Rattle.turns.specs.Turns.{ciphered};
ghost use Rattle.groups.specs.Group.{few_at, through};

use rounds::Cipher;
use way::Way;

// The 64 blocks at a place, under the tweaks at that place.
fn group(way: &Way, tweaks: &[u8], blocks: &mut [u8], at: usize)
    requires tweaks { at + 1024 ≤ length tweaks.now }
    requires blocks { at + 1024 ≤ length blocks.old }
    ensures { blocks.new ≡ few_at (through way.now) 64 at tweaks.now blocks.old }
{
    let mut w = [[0u64; 16]; 8];
    planes::loading::load(tweaks, at, &mut w);
    let mut tweakeys = [[[0u64; 16]; 8]; 3];
    for (s, t) in tweakeys.iter_mut().enumerate() {
        plane_tweakeys::tweakeys::tweakey(way.cipher, s, way.shared, &w, t);
    }
    let mut x = [[0u64; 16]; 8];
    planes::loading::load(blocks, at, &mut x);
    plane_steps::turns(way.ahead, way.cipher, way.steps, &mut x, &tweakeys);
    planes::storing::store(&mut x, blocks, at);
}

// The first g groups.
fn groups(way: &Way, tweaks: &[u8], blocks: &mut [u8], g: usize)
    requires tweaks { 1024 * g ≤ length tweaks.now }
    requires blocks { 1024 * g ≤ length blocks.old }
    ensures { blocks.new ≡ each_of (through way.now) (64 * g) tweaks.now blocks.old }
{
    for i in 0..g {
        group(way, tweaks, blocks, 1024 * i);
    }
}

// At most 64 blocks at a place: a group that is filled up, and of which only these are put back.
fn filled_up(way: &Way, tweaks: &[u8], blocks: &mut [u8], at: usize, r: usize)
    requires few { r ≤ 64 }
    requires tweaks { at + 16 * r ≤ length tweaks.now }
    requires blocks { at + 16 * r ≤ length blocks.old }
    ensures { blocks.new ≡ few_at (through way.now) r at tweaks.now blocks.old }
{
    let mut t = [0u8; 1024];
    let mut b = [0u8; 1024];
    let end = at + 16 * r;
    blockwise::copy(&tweaks[at..end], &mut t);
    blockwise::copy(&blocks[at..end], &mut b);
    group(way, &t, &mut b, 0);
    blockwise::copy(&b[..16 * r], &mut blocks[at..]);
}

// The first w blocks, in groups, of which the last may be filled up.
pub fn first(
    ahead: bool,
    k: Cipher,
    n: usize,
    key: [u8; 16],
    tweaks: &[u8],
    blocks: &mut [u8],
    w: usize,
)
    requires { (n ≤ 14)
        × (16 * w ≤ length tweaks.now)
        × (16 * w ≤ length blocks.old) }
    ensures { blocks.new ≡ each_of (ciphered ahead k n key) w tweaks.now blocks.old }
{
    let mut shared = [[0; 16]; 8];
    plane_tweakeys::sharing::share(state::rows_of(state::load(key)), &mut shared);
    let way = Way {
        ahead,
        cipher: k,
        steps: n,
        key,
        shared: &shared,
    };
    let g = w / 64;
    groups(&way, tweaks, blocks, g);
    if 64 * g < w {
        filled_up(&way, tweaks, blocks, 1024 * g, w - 64 * g);
    }
}
