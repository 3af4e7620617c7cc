// One level between rows: each word of a row and the one below it, in a row that is D words further on, exchange bits that are D apart.
ghost use Rattle.std.specs.Prelude.{◌≡◌, ◌+◌, ◌/◌, ◌<◌, IsTrue};
ghost use Rattle.transposition.specs.Levels.{Exchanged, between_rows, exchanged_rows, level};

// Sixteen pairs of words exchanged.
fn pairs<const D: usize, const MASK: u64>(a: &mut [u64; 16], b: &mut [u64; 16])
    requires { D < 64 }
    ensures { Exchanged D MASK a.old b.old a.new b.new }
{
    for c in 0..16 {
        let p = a[c];
        let q = b[c];
        let t = ((p >> D) ^ q) & MASK;
        a[c] = p ^ (t << D);
        b[c] = q ^ t;
    }
}

// Row i and its partner exchanged.
fn exchange<const D: usize, const MASK: u64>(x: &mut [[u64; 16]; 8], i: usize)
    requires small { D < 64 }
    requires partner { i + D / 16 < 8 }
    ensures { x.new ≡ exchanged_rows D MASK (D / 16) x.old i }
{
    let mut a = x[i];
    let mut b = x[i + D / 16];
    pairs::<D, MASK>(&mut a, &mut b);
    x[i] = a;
    x[i + D / 16] = b;
}

// All pairs of rows: one level.
pub fn level<const D: usize, const MASK: u64>(x: &mut [[u64; 16]; 8])
    requires { IsTrue (between_rows D) }
    ensures { x.new ≡ level D MASK x.old }
{
    for i in 0..8 {
        if i / (D / 16) % 2 == 0 {
            exchange::<D, MASK>(x, i);
        }
    }
}
