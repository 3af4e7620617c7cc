// Sixty-four blocks read into planes.
ghost use Rattle.std.specs.Prelude.{◌+◌, ◌≤◌, length};
ghost use Rattle.planes.specs.Loaded.{Four, Fours, Loaded};

// The four rows that stand at a place.
fn word(s: &[u8], at: usize) -> u64
    requires { at + 8 ≤ length s.now }
    ensures { Four s.now at result }
{
    let mut b = [0u8; 8];
    b.copy_from_slice(&s[at..at + 8]);
    u64::from_le_bytes(b)
}

// The same of this block and of the fifteen behind it, in r.
fn words(s: &[u8], at: usize, r: &mut [u64; 16])
    requires { at + 248 ≤ length s.now }
    ensures { Fours s.now at 16 r.new }
{
    for (c, w) in r.iter_mut().enumerate() {
        *w = word(s, at + 16 * c);
    }
}

// The planes of the 64 blocks that stand at a place of a slice, in x.
pub fn load(s: &[u8], at: usize, x: &mut [[u64; 16]; 8])
    requires { at + 1024 ≤ length s.now }
    ensures { Loaded s.now at x.new }
{
    for (i, r) in x.iter_mut().enumerate() {
        words(s, at + 256 * (i % 4) + 8 * (i / 4), r);
    }
    transposition::turning::turn(x);
}
