// The L-box layer of one state by multiplications: no load that depends on the state.
#![tactic(auto)]

ghost use Rattle.std.specs.Prelude.{◌≡◌, ◌*◌, List, ℕ};
ghost use Rattle.std.specs.Int.Bits.{bit_and};
ghost use Rattle.lbox.specs.Lbox;
ghost use Rattle.masks.specs.Products.{ones, sum_of};
ghost use Rattle.state.specs.State.{rows_of};
ghost use Rattle.tables.specs.LBox.{matrix};

use state::State;
use steps::LBoxLayer;
use tables::LBox;

// The columns of each matrix.
const SCREAM: [u16; 16] = [
    0x385C, 0x52A9, 0x7BB3, 0x96C1, 0xD76D, 0x3AE0, 0xE524, 0xFEA5, 0x464B, 0xF1AF, 0xA133, 0x7F74,
    0x6712, 0x7A6F, 0x701B, 0x8AB1,
];

const SCREAM_INVERSE: [u16; 16] = [
    0xE79E, 0x7704, 0x2AD1, 0x6313, 0xDC05, 0xAEF6, 0x2939, 0x82AE, 0x1E54, 0xB9BE, 0x19D8, 0xA8A5,
    0x6ABF, 0x7EE5, 0x7BD6, 0x86D8,
];

const ISCREAM: [u16; 16] = [
    0xFFFE, 0xCCC1, 0xAAA1, 0x9991, 0x6689, 0x5585, 0x3383, 0x007F, 0xE069, 0xD055, 0xB033, 0x700F,
    0x0E69, 0x0D55, 0x0B33, 0x070F,
];

// The lowest bit of each of the four rows.
const ONES: u64 = 0x0001_0001_0001_0001;

// The lowest bits of four rows times a column.
fn times(x: u64, column: u16) -> u64
    ensures { result ≡ bit_and x ones * column }
{
    (x & ONES) * u64::from(column)
}

// Four rows: for each bit, those of the four rows times the matrix's column. Compiled into each place, where the columns are constants.
#[inline(always)]
fn word(x: u64, columns: [u16; 16]) -> u64
    ensures { result ≡ sum_of 16 columns x }
{
    let mut sum = 0;
    for i in 0..16 {
        sum ^= times(x >> i, columns[i]);
    }
    sum
}

#[inline(always)]
fn layer_by(columns: [u16; 16], s: State) -> State
    ensures low { result.low ≡ sum_of 16 columns s.low }
    ensures high { result.high ≡ sum_of 16 columns s.high }
{
    State {
        low: word(s.low, columns),
        high: word(s.high, columns),
    }
}

// The layer of an L-box, on a state.
pub fn layer(b: LBox, s: State) -> State
    ensures { rows_of result ≡ Lbox.layer (matrix b) (rows_of s) }
{
    match b {
        LBox::Scream => layer_by(SCREAM, s),
        LBox::ScreamInverse => layer_by(SCREAM_INVERSE, s),
        LBox::IScream => layer_by(ISCREAM, s),
    }
}

// An L-box whose layer is computed so.
#[derive(Clone, Copy)]
pub struct ByMasks {
    pub of: LBox,
}

impl LBoxLayer for ByMasks {
    ghost lbox = { λ m. matrix m.of };

    #[inline(always)]
    fn layer(&self, w: [u16; 8]) -> [u16; 8] {
        state::rows_of(layer(self.of, state::state_of(w)))
    }
}
