// Text blocks. A function with a precondition serves our own crates, which have tested what it asks.
#![tactic(auto)]

pub mod marks;
pub mod setting;

ghost use Rattle.std.specs.Prelude.{◌≡◌, ◌+◌, ◌*◌, ◌/◌, ◌^◌, ◌<◌, ◌≤◌, length};
ghost use Rattle.calls.specs.Calls.{length_block};
ghost use Rattle.calls.specs.Pieces.{through};
ghost use Rattle.calls.specs.Tweak.{special_tweak, blocks_of, last_text_mark};
ghost use Rattle.text_blocks.specs.Under.{enciphers, deciphers, first_blocks, last_bytes, PadFor};
ghost use Rattle.text_blocks.specs.Text.{Part};

use block_numbers::TextBlock;
use setting::Setting;

// Into how many blocks n bytes are cut.
pub fn blocks_of(n: usize) -> usize
    ensures { result ≡ blocks_of n }
{
    n.div_ceil(16)
}

// One block enciphered.
pub fn encipher_one(u: &Setting<'_>, tweak: [u8; 16], block: [u8; 16]) -> [u8; 16]
    ensures { result ≡ enciphers u.now.suite u.now.key tweak block }
{
    let mut b = block;
    cipher::blocks::cipher_blocks(true, u.suite, u.key, &tweak, &mut b);
    b
}

// The first k blocks of s, each under the tweak of its number, from `first` on. `ahead` stays a bool here and in `blocks`, for it is the Bool of
// the definitions that the ciphers' contracts cite (`first_blocks ahead`): by a type, each contract would turn it into that Bool.
fn chunk(ahead: bool, u: &Setting<'_>, first: TextBlock, k: usize, s: &mut [u8])
    requires { (k ≤ 64)
        × (16 * k ≤ length s.old)
        × (first.0 + k ≤ 2 ^ 32) }
    ensures { s.new ≡ first_blocks ahead u.now.suite u.now.key u.now.nonce.now first.0 k s.old }
{
    let mut tweaks = [0u8; 1024];
    tweak::text_tweaks(u.nonce, first, k, &mut tweaks);
    let end = 16 * k;
    cipher::blocks::cipher_blocks(ahead, u.suite, u.key, &tweaks[..end], s);
}

// The whole blocks of s likewise, at most 64 at a time. By their numbers and not by `chunks_mut`: of a slice that was lent out in chunks, std says
// its length afterwards and not its bytes.
pub fn blocks(ahead: bool, u: &Setting<'_>, first: TextBlock, s: &mut [u8])
    requires { first.0 + length s.old < 2 ^ 32 }
    ensures { s.new
        ≡ first_blocks ahead u.now.suite u.now.key u.now.nonce.now first.0 (length s.old / 16) s.old }
{
    let n = s.len() / 16;
    let turns = n.div_ceil(64);
    for i in 0..turns {
        let done = 64 * i;
        let k = (n - done).min(64);
        chunk(ahead, u, first.after(done), k, &mut s[16 * done..]);
    }
}

// The block that has the length of r bytes in bits.
pub fn length_block(r: usize) -> [u8; 16]
    requires { r ≤ 16 }
    ensures { result ≡ length_block r }
{
    let mut b = [0u8; 16];
    b[15] = (8 * r) as u8;
    b
}

// What is added to the last block of a text of m bytes, which has r.
pub fn pad(u: &Setting<'_>, m: usize, r: usize) -> [u8; 16]
    requires { r ≤ 16 }
    ensures { result ≡ enciphers u.now.suite u.now.key (special_tweak u.now.nonce.now (last_text_mark m)) (length_block r) }
{
    let t = tweak::special_tweak(u.nonce, marks::last_text_mark(m));
    encipher_one(u, t, length_block(r))
}

// How many bytes the last block of m has; 0 where there is none.
pub fn last_bytes(m: usize) -> usize
    ensures { (result ≡ last_bytes m)
        × (result ≤ 16) }
{
    if m == 0 {
        return 0;
    }
    m - 16 * ((m - 1) / 16)
}

// A part of a text of m bytes, from block `first` on, deciphered; `pad` is what is added to the text's last block, and is any where the part ends
// before that block.
pub fn through(u: &Setting<'_>, m: usize, first: TextBlock, pad: [u8; 16], s: &mut [u8])
    requires { Part m first.0 (length s.old)
        × PadFor u.now.suite u.now.key u.now.nonce.now m first.0 (length s.old) pad }
    ensures { s.new
        ≡ through (deciphers u.now.suite u.now.key) (enciphers u.now.suite u.now.key) u.now.nonce.now m first.0 s.old }
{
    let n = s.len();
    let end = first.place() + n;
    if end < m {
        blocks(false, u, first, s);
        return;
    }
    if n == 0 {
        return;
    }
    let at = 16 * ((n - 1) / 16);
    blocks(false, u, first, &mut s[..at]);
    sums::add_to(&mut s[at..], pad);
}
