// The tweaks of a sealing's cipher calls. specs/TweakLaw says that within the limits that of each number is the scope's, byte for byte, and that
// a special one is as the scope says of its byte. Each public function serves the crates above, which have tested the nonce's length and the
// limits.
#![tactic(auto)]

ghost use Rattle.std.specs.Prelude.{◌≡◌, ◌++◌, ◌+◌, ◌-◌, ◌*◌, ◌%◌, ◌^◌, ◌≤◌, length, take, drop, replicate};
ghost use Rattle.bits.specs.Bytes.{big_endian};
ghost use Rattle.calls.specs.Tweak.{tweak, text_tweak, header_tweak, special_tweak};
ghost use Rattle.tweak.specs.Made.{Makeable, made_in};

use block_numbers::{HeaderBlock, TextBlock};

// The nonce, then zeros.
fn based(nonce: &[u8]) -> [u8; 16]
    requires { length nonce.now ≤ 15 }
    ensures { result ≡ nonce.now ++ replicate (16 - length nonce.now) 0 }
{
    let mut t = [0u8; 16];
    blockwise::copy(nonce, &mut t);
    t
}

// A number in all bytes from n on of the block at a place: a loop, for these are 1 to 16 bytes and no width of `to_be_bytes`.
fn put_number(d: &mut [u8], at: usize, n: usize, number: u32)
    requires { (n ≤ 15)
        × (at + 16 ≤ length d.old) }
    ensures { d.new ≡ take (at + n) d.old
        ++ (big_endian (16 - n) number ++ drop (at + 16) d.old) }
{
    let mut x = number;
    for i in (n..16).rev() {
        d[at + i] = (x % 256) as u8;
        x /= 256;
    }
}

// A block put at a place: the base, a number in all bytes from n on, and a mark added in the first of these. It is made in place: a
// processor waits where a block is made byte by byte and then read whole.
fn put_marked(d: &mut [u8], at: usize, base: [u8; 16], n: usize, mark: u8, number: u32)
    requires { (n ≤ 15)
        × (at + 16 ≤ length d.old) }
    ensures { d.new ≡ take at d.old
        ++ (take n base ++ big_endian (16 - n) (mark * 256 ^ (15 - n) + number))
        ++ drop (at + 16) d.old }
{
    blockwise::put_at(d, at, base);
    put_number(d, at, n, number);
    d[at + n] = mark.wrapping_add(d[at + n]);
}

// The tweaks of k numbers from `first` on, one behind the other. The number, how many, and where they go are handed on to it by the next two as
// they are: a struct of the three would be built for that call alone, of one kind of number by each.
fn fill(nonce: &[u8], mark: u8, first: u32, k: usize, tweaks: &mut [u8])
    requires { Makeable nonce.now first k tweaks.old }
    ensures { tweaks.new ≡ made_in (tweak nonce.now mark) first k tweaks.old }
{
    let base = based(nonce);
    let n = nonce.len();
    for i in 0..k {
        put_marked(tweaks, 16 * i, base, n, mark, first + (i as u32));
    }
}

// The tweaks of k text blocks that are not last, from `first` on, one behind the other. This function and the next stay two: what they differ
// in, a type and a mark, is all that each says over `fill`; a trait would say it in more lines.
pub fn text_tweaks(nonce: &[u8], first: TextBlock, k: usize, tweaks: &mut [u8])
    requires { Makeable nonce.now first.0 k tweaks.old }
    ensures { tweaks.new ≡ made_in (text_tweak nonce.now) first.0 k tweaks.old }
{
    fill(nonce, 0x00, first.number(), k, tweaks);
}

// The tweaks of k header blocks that are not last, from `first` on, one behind the other.
pub fn header_tweaks(nonce: &[u8], first: HeaderBlock, k: usize, tweaks: &mut [u8])
    requires { Makeable nonce.now first.0 k tweaks.old }
    ensures { tweaks.new ≡ made_in (header_tweak nonce.now) first.0 k tweaks.old }
{
    fill(nonce, 0x80, first.number(), k, tweaks);
}

// A special tweak: the nonce, one byte, then zeros.
pub fn special_tweak(nonce: &[u8], byte: u8) -> [u8; 16]
    requires { length nonce.now ≤ 15 }
    ensures { result ≡ special_tweak nonce.now byte }
{
    let mut t = [0u8; 16];
    put_marked(&mut t, 0, based(nonce), nonce.len(), byte, 0);
    t
}
