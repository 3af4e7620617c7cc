// Numbers, big-endian.
ghost use Rattle.std.specs.Prelude.{◌≡◌, ◌+◌, ◌*◌, ◌^◌, ◌<◌, length, take};
ghost use Rattle.bits.specs.Bytes.{big_endian, number_of};

// The number in as many bytes as `out` has: a loop, since any length is lent, and `to_be_bytes` has but the eight of a u64.
pub fn put(v: u64, out: &mut [u8])
    ensures { out.new ≡ big_endian (length out.old) v }
{
    let mut x = v;
    for i in (0..out.len()).rev() {
        out[i] = (x % 256) as u8;
        x /= 256;
    }
}

// Four bytes as a number, the highest first.
pub fn four(a: u8, b: u8, c: u8, d: u8) -> u64
    ensures { result ≡ ((a * 256 + b) * 256 + c) * 256 + d }
{
    u64::from(u32::from_be_bytes([a, b, c, d]))
}

// The number of the bytes of s, of the first eight if there are more; a loop likewise.
pub fn of(s: &[u8]) -> u64
    ensures { result ≡ number_of (take 8 s.now) }
{
    let mut v: u64 = 0;
    for b in &s[..s.len().min(8)] {
        v = v * 256 + u64::from(*b);
    }
    v
}
