// The three L-boxes by tables: the four byte tables of each as the paper prints them, and two and two joined.
#![tactic(auto)]

mod iscream;
mod scream;
mod scream_inverse;

ghost use Rattle.std.specs.Prelude.{◌≡◌};
ghost use Rattle.lbox.specs.Lbox;
ghost use Rattle.lbox.specs.Tables.{lows, highs};
ghost use Rattle.tables.specs.LBox.{matrix, printed};

// An L-box. Scream's inverse is one of its own, and iScream's is its own inverse.
#[derive(Clone, Copy, Debug, PartialEq, Eq, Hash)]
pub enum LBox {
    Scream,
    ScreamInverse,
    IScream,
}

impl LBox {
    // L1,1, L1,2, L2,1 and L2,2: each is the paper's.
    pub fn tables(self) -> [[u8; 256]; 4]
        ensures { result ≡ printed self }
    {
        match self {
            LBox::Scream => [scream::T11, scream::T12, scream::T21, scream::T22],
            LBox::ScreamInverse => [
                scream_inverse::T11,
                scream_inverse::T12,
                scream_inverse::T21,
                scream_inverse::T22,
            ],
            LBox::IScream => [iscream::T11, iscream::T12, iscream::T21, iscream::T22],
        }
    }

    // A match for each half: a constant is lent where it is named, and a function that hands all four tables out copies them, as `tables` does,
    // for which the stack of a single block has no room.

    // L1,1 and L1,2 joined: what each low byte gives.
    pub fn low(self) -> [u16; 256]
        ensures { result ≡ lows (matrix self) }
    {
        match self {
            LBox::Scream => lbox::join(&scream::T11, &scream::T12),
            LBox::ScreamInverse => lbox::join(&scream_inverse::T11, &scream_inverse::T12),
            LBox::IScream => lbox::join(&iscream::T11, &iscream::T12),
        }
    }

    // L2,1 and L2,2 joined: what each high byte gives.
    pub fn high(self) -> [u16; 256]
        ensures { result ≡ highs (matrix self) }
    {
        match self {
            LBox::Scream => lbox::join(&scream::T21, &scream::T22),
            LBox::ScreamInverse => lbox::join(&scream_inverse::T21, &scream_inverse::T22),
            LBox::IScream => lbox::join(&iscream::T21, &iscream::T22),
        }
    }

    // A row through the L-box, of tables that are joined for it alone.
    pub fn row(self, x: u16) -> u16
        ensures { result ≡ Lbox.times (matrix self) x }
    {
        lbox::look_up(x, &self.low(), &self.high())
    }
}

// An L-box with its joined tables, which are lent.
#[derive(Clone, Copy)]
pub struct Joined<'a> {
    pub of: LBox,
    pub low: &'a [u16; 256],
    pub high: &'a [u16; 256],
    ghost low_is: { low.now ≡ lows (matrix of) },
    ghost high_is: { high.now ≡ highs (matrix of) },
}

impl Joined<'_> {
    // A row through the L-box.
    pub fn row(&self, x: u16) -> u16
        ensures { result ≡ Lbox.times (matrix self.now.of) x }
    {
        lbox::look_up(x, self.low, self.high)
    }
}
