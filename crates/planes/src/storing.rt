// Planes written as sixty-four blocks.
ghost use Rattle.std.specs.Prelude.{◌≡◌, ◌+◌, ◌<◌, ◌≤◌, length};
ghost use Rattle.std.proofs.Math.Seq.{paste};
ghost use Rattle.blockwise.specs.Blocks.{strung};
ghost use Rattle.state.specs.Block.{bytes};
ghost use Rattle.state.specs.State.{rows_of};
ghost use Rattle.transposition.specs.Levels.{turned};
ghost use Rattle.planes.specs.Loaded.{rows_in};
ghost use Rattle.planes.specs.Planes.{lane};

use state::State;

// State b, of planes that are turned.
fn state_in(y: &[[u64; 16]; 8], b: usize) -> State
    requires { b < 64 }
    ensures { rows_of result ≡ rows_in y.now b }
{
    let q = b / 16;
    let c = b % 16;
    State {
        low: y[q][c],
        high: y[q + 4][c],
    }
}

// All states, of planes that are turned, put at a place of a slice.
fn put(y: &[[u64; 16]; 8], d: &mut [u8], at: usize)
    requires { at + 1024 ≤ length d.old }
    ensures { d.new ≡ paste d.old at (strung 64 (λ b. bytes (rows_in y.now b))) 1024 }
{
    for b in 0..64 {
        blockwise::put_at(d, at + 16 * b, state::store(state_in(y, b)));
    }
}

// The 64 states put as blocks at a place of a slice. The planes are turned in their place.
pub fn store(x: &mut [[u64; 16]; 8], d: &mut [u8], at: usize)
    requires { at + 1024 ≤ length d.old }
    ensures { (x.new ≡ turned x.old)
        × (d.new ≡ paste d.old at (strung 64 (λ b. bytes (lane x.old b))) 1024) }
{
    transposition::turning::turn(x);
    put(x, d, at);
}
