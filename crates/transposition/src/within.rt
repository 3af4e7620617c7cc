// One level within a row: words that are D apart exchange bits that are D apart.
ghost use Rattle.std.specs.Prelude.{◌≡◌, IsTrue};
ghost use Rattle.transposition.specs.Levels.{in_a_row, level_in};

pub fn level<const D: usize, const MASK: u64>(r: &mut [u64; 16])
    requires { IsTrue (in_a_row D) }
    ensures { r.new ≡ level_in D MASK r.old }
{
    for c in 0..16 {
        if c / D % 2 == 0 {
            let p = r[c];
            let q = r[c + D];
            let t = ((p >> D) ^ q) & MASK;
            r[c] = p ^ (t << D);
            r[c + D] = q ^ t;
        }
    }
}
