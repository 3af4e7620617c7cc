// Bytes and blocks in a slice: bytes copied; how many blocks there are, one read, one put.
#![tactic(auto)]

ghost use Rattle.std.specs.Prelude.{◌≡◌, ◌++◌, ◌+◌, ◌/◌, ◌≤◌, min, length, take, drop};
ghost use Rattle.std.proofs.Math.Seq.{paste};

// How many whole blocks two slices of these lengths have both.
pub fn whole(a: usize, b: usize) -> usize
    ensures { result ≡ min a b / 16 }
{
    a.min(b) / 16
}

// The block that stands at a place of a slice; for the crates above, which know that it is there.
pub fn block_at(s: &[u8], at: usize) -> [u8; 16]
    requires { at + 16 ≤ length s.now }
    ensures { result ≡ take 16 (drop at s.now) }
{
    let mut b = [0u8; 16];
    b.copy_from_slice(&s[at..at + 16]);
    b
}

// A block put at a place of a slice; likewise.
pub fn put_at(d: &mut [u8], at: usize, b: [u8; 16])
    requires { at + 16 ≤ length d.old }
    ensures { d.new ≡ paste d.old at b 16 }
{
    d[at..at + 16].copy_from_slice(&b);
}

// The bytes of s at the start of d; likewise. A loop, which is compiled to memcpy; copy_from_slice, of as many bytes as are lent, would ask for
// memmove.
pub fn copy(s: &[u8], d: &mut [u8])
    requires { length s.now ≤ length d.old }
    ensures { d.new ≡ s.now ++ drop (length s.now) d.old }
{
    for i in 0..s.len() {
        d[i] = s[i];
    }
}
