// Bytes filled up and added. A function with a precondition serves our own crates, which have tested what it asks.
#![tactic(auto)]

ghost use Rattle.std.specs.Prelude.{◌≡◌, ◌/◌, ◌≤◌, length};
ghost use Rattle.bits.specs.Bytes.{added};
ghost use Rattle.calls.specs.Calls.{filled};
ghost use Rattle.calls.specs.Tweak.{blocks_of};
ghost use Rattle.blockwise.specs.Blocks.{block};
ghost use Rattle.sums.specs.Sums.{sum_from};

// Two blocks added by xor.
pub fn add(a: [u8; 16], b: [u8; 16]) -> [u8; 16]
    ensures { result ≡ added a b }
{
    let mut r = a;
    add_to(&mut r, b);
    r
}

// At most 16 bytes, then the byte `pad`, then zeros.
pub fn fill(s: &[u8], pad: u8) -> [u8; 16]
    requires { length s.now ≤ 16 }
    ensures { result ≡ filled pad s.now }
{
    let n = s.len();
    let mut b = [0u8; 16];
    blockwise::copy(s, &mut b);
    if n < 16 {
        b[n] = pad;
    }
    b
}

// The whole blocks of s added to a sum.
pub fn add_blocks(sum: [u8; 16], s: &[u8]) -> [u8; 16]
    ensures { result ≡ sum_from sum (length s.now / 16) (block s.now) }
{
    let (blocks, _) = s.as_chunks::<16>();
    let mut r = sum;
    for b in blocks {
        add_to(&mut r, *b);
    }
    r
}

// All blocks of s added to a sum, the last zero-filled.
pub fn add_all(sum: [u8; 16], s: &[u8]) -> [u8; 16]
    ensures { result ≡ sum_from sum (blocks_of (length s.now)) (λ i. filled 0 (block s.now i)) }
{
    let whole = add_blocks(sum, s);
    let (_, rest) = s.as_chunks::<16>();
    if rest.is_empty() {
        return whole;
    }
    add(whole, fill(rest, 0))
}

// At most 16 bytes, with the first bytes of a block added.
pub fn add_to(d: &mut [u8], b: [u8; 16])
    requires { length d.old ≤ 16 }
    ensures { d.new ≡ added d.old b }
{
    for (i, x) in d.iter_mut().enumerate() {
        *x ^= b[i];
    }
}
