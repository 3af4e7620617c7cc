// The state: eight rows of 16 bits, held in two words of four rows each.
#![tactic(auto)]

ghost use Rattle.std.specs.Prelude.{◌≡◌, ◌+◌, ◌*◌, ◌%◌};
ghost use Rattle.state.specs.Block.{rows, bytes};
ghost use Rattle.state.specs.Rows.{add_rows};
ghost use Rattle.state.specs.State.{rows_of};

#[derive(Clone, Copy)]
pub struct State {
    pub low: u64,
    pub high: u64,
}

// The lowest row: a cast asks that the number fits.
fn row(x: u64) -> u16
    ensures { result ≡ x % 65536 }
{
    (x % 65536) as u16
}

// The eight rows.
#[tactic(auto, unfolding(crate::specs::State::rows_of))]
pub fn rows_of(s: State) -> [u16; 8]
    ensures { result ≡ rows_of s }
{
    let x = s.low;
    let y = s.high;
    [
        row(x),
        row(x >> 16),
        row(x >> 32),
        row(x >> 48),
        row(y),
        row(y >> 16),
        row(y >> 32),
        row(y >> 48),
    ]
}

fn four(a: u16, b: u16, c: u16, d: u16) -> u64
    ensures { result ≡ a + b * 65536 + c * 4294967296 + d * 281474976710656 }
{
    u64::from(a) + (u64::from(b) << 16) + (u64::from(c) << 32) + (u64::from(d) << 48)
}

// The state of eight rows.
pub fn state_of(w: [u16; 8]) -> State
    ensures { rows_of result ≡ w }
{
    State {
        low: four(w[0], w[1], w[2], w[3]),
        high: four(w[4], w[5], w[6], w[7]),
    }
}

// Two states added by xor.
pub fn add(a: State, b: State) -> State
    ensures { rows_of result ≡ add_rows (rows_of a) (rows_of b) }
{
    State {
        low: a.low ^ b.low,
        high: a.high ^ b.high,
    }
}

// The state of a block.
pub fn load(b: [u8; 16]) -> State
    ensures { rows_of result ≡ rows b }
{
    let (words, _) = b.as_chunks::<8>();
    State {
        low: u64::from_le_bytes(words[0]),
        high: u64::from_le_bytes(words[1]),
    }
}

// The block of a state.
pub fn store(s: State) -> [u8; 16]
    ensures { result ≡ bytes (rows_of s) }
{
    let mut b = [0u8; 16];
    b[..8].copy_from_slice(&s.low.to_le_bytes());
    b[8..].copy_from_slice(&s.high.to_le_bytes());
    b
}
