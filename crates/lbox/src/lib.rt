// The L-boxes: a row through four byte tables, and what that means, a matrix times the row.
#![tactic(auto)]

pub mod matrices;

ghost use Rattle.std.specs.Prelude.{◌≡◌, ◌*◌, ◌%◌};
ghost use Rattle.lbox.specs.Lbox;
ghost use Rattle.lbox.specs.Tables.{joined, looked_up};

// Two byte tables as one of words: the entries of the first are the high halves. A sum and no `from_be_bytes`: the compiler folds this loop into
// constants, and a single block then takes 0.7 times the time.
pub fn join(high: &[u8; 256], low: &[u8; 256]) -> [u16; 256]
    ensures { result ≡ joined high.now low.now }
{
    let mut words = [0; 256];
    for (i, w) in words.iter_mut().enumerate() {
        *w = u16::from(high[i]) * 256 + u16::from(low[i]);
    }
    words
}

// A row through joined tables: its low byte through the one, its high byte through the other.
pub fn look_up(x: u16, low: &[u16; 256], high: &[u16; 256]) -> u16
    ensures { result ≡ looked_up low.now high.now x }
{
    let [b0, b1] = x.to_be_bytes();
    low[usize::from(b1)] ^ high[usize::from(b0)]
}

// A matrix entry where the bit is set, else 0.
fn entry(b: u8, bit: u16) -> u8
    ensures { result ≡ b * (bit % 2) }
{
    if bit % 2 == 1 { b } else { 0 }
}

// A matrix row times a word.
fn dot(row: &[u8; 16], x: u16) -> u8
    ensures { result ≡ Lbox.dot row.now x }
{
    let mut sum = 0;
    for j in (0..16).rev() {
        sum = entry(row[j], x >> j) ^ sum;
    }
    sum
}

// A matrix times a row of the state.
pub fn times(m: [[u8; 16]; 16], x: u16) -> u16
    ensures { result ≡ Lbox.times m x }
{
    let mut product = 0;
    for i in (0..16).rev() {
        product = product * 2 + u16::from(dot(&m[i], x) % 2);
    }
    product
}
