// Two squares turned.
ghost use Rattle.std.specs.Prelude.{◌≡◌};
ghost use Rattle.transposition.specs.Levels.{turned_row, within, turned};

use crate::{between, within};

// The levels within a row.
fn row(r: &mut [u64; 16])
    ensures { r.new ≡ turned_row r.old }
{
    within::level::<1, 0x5555555555555555>(r);
    within::level::<2, 0x3333333333333333>(r);
    within::level::<4, 0x0F0F0F0F0F0F0F0F>(r);
    within::level::<8, 0x00FF00FF00FF00FF>(r);
}

// The levels within each row.
fn rows(x: &mut [[u64; 16]; 8])
    ensures { x.new ≡ within x.old }
{
    for r in x.iter_mut() {
        row(r);
    }
}

// All levels.
pub fn turn(x: &mut [[u64; 16]; 8])
    ensures { x.new ≡ turned x.old }
{
    rows(x);
    between::level::<16, 0x0000FFFF0000FFFF>(x);
    between::level::<32, 0x00000000FFFFFFFF>(x);
}
