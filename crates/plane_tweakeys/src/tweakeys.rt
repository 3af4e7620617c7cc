// The tweakeys of sixty-four tweaks under one key.
ghost use Rattle.std.specs.Prelude.{◌≡◌, ◌<◌};
ghost use Rattle.planes.specs.Planes.{Goes, lane};
ghost use Rattle.state.specs.Rows.{add_rows};
ghost use Rattle.rounds.specs.Tweakey.{φ, rotated};
ghost use Rattle.rounds.specs.Cipher.{parts};
ghost use Rattle.plane_tweakeys.specs.PlaneRows.{rotated_planes};

use crate::sums::{add_row, sum};
use rounds::Cipher;

// φ of each state, and the key added, in y.
fn phi_sum(x: &[[u64; 16]; 8], key: &[[u64; 16]; 8], y: &mut [[u64; 16]; 8])
    ensures { Goes (λ b w. add_rows (φ w) (lane key.now b)) x.now y.new }
{
    for i in 0..4 {
        y[i] = add_row(add_row(x[i], x[i + 4]), key[i]);
        y[i + 4] = add_row(x[i], key[i + 4]);
    }
}

// The same with φ twice, which leaves (x1, x0 xor x1) of (x0, x1).
fn phi_phi_sum(x: &[[u64; 16]; 8], key: &[[u64; 16]; 8], y: &mut [[u64; 16]; 8])
    ensures { Goes (λ b w. add_rows (φ (φ w)) (lane key.now b)) x.now y.new }
{
    for i in 0..4 {
        y[i] = add_row(x[i + 4], key[i]);
        y[i + 4] = add_row(add_row(x[i], x[i + 4]), key[i + 4]);
    }
}

fn rotate_row(r: [u64; 16]) -> [u64; 16]
    ensures { result ≡ rotated_planes r }
{
    let mut y = [0u64; 16];
    for (j, p) in y.iter_mut().enumerate() {
        *p = r[(j + 15) % 16];
    }
    y
}

// Each row of each state rotated left by 1, in y.
fn rotate(x: &[[u64; 16]; 8], y: &mut [[u64; 16]; 8])
    ensures { Goes (λ b. rotated) x.now y.new }
{
    for (i, r) in y.iter_mut().enumerate() {
        *r = rotate_row(x[i]);
    }
}

// TK(s), for s below 3, of each of the 64 tweaks in x under the key in the same state, in y.
pub fn tweakey(
    k: Cipher,
    s: usize,
    key: &[[u64; 16]; 8],
    x: &[[u64; 16]; 8],
    y: &mut [[u64; 16]; 8],
)
    requires { s < 3 }
    ensures { Goes (λ b w. (parts k).tweakey (lane key.now b) w s) x.now y.new }
{
    match k {
        Cipher::Scream => match s {
            0 => sum(x, key, y),
            1 => phi_sum(x, key, y),
            _ => phi_phi_sum(x, key, y),
        },
        Cipher::IScream => {
            if s % 2 == 0 {
                sum(x, key, y);
            } else {
                rotate(x, y);
            }
        }
    }
}
