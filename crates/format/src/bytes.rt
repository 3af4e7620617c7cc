// Strings one behind the other.
ghost use Rattle.std.specs.Prelude.{◌≡◌, ◌++◌, ◌+◌, ◌≤◌, length, drop};
ghost use Rattle.bits.specs.Bytes.{big_endian};

// Two strings, one behind the other at the start of an output; for our own crates, which know that it has room for both.
pub fn join(a: &[u8], b: &[u8], out: &mut [u8])
    requires { length a.now + length b.now ≤ length out.old }
    ensures { out.new ≡ a.now
        ++ (b.now ++ drop (length a.now + length b.now) out.old) }
{
    let n = a.len();
    blockwise::copy(a, out);
    blockwise::copy(b, &mut out[n..]);
}

// A number in w bytes and a string behind it, at the start of an output; for our own crates, which know that it has room for both.
pub fn number_then(n: u64, w: usize, s: &[u8], out: &mut [u8])
    requires { w + length s.now ≤ length out.old }
    ensures { out.new ≡ (big_endian w n ++ s.now)
        ++ drop (w + length s.now) out.old }
{
    fields::number::put(n, &mut out[..w]);
    blockwise::copy(s, &mut out[w..]);
}
