// Scream's S-box on the planes of sixty-four states: Algorithm 3 of the paper.
ghost use Rattle.std.specs.Prelude.{◌≡◌};
ghost use Rattle.sbox.specs.Sbox;
ghost use Rattle.planes.specs.Planes.{Shaped, Goes};

use crate::each_column;

// The S-box on sixty-four columns, one of each state.
pub fn sbox(w: [u64; 8]) -> [u64; 8]
    ensures { result ≡ Sbox.layer_at 64 Sbox.scream w }
{
    sbox::scream::circuit(w)
}

// The S-box on all sixteen columns of each state.
pub fn layer(x: &mut [[u64; 16]; 8])
    requires { Shaped x.old }
    ensures { Goes (λ b. Sbox.layer Sbox.scream) x.old x.new }
{
    each_column(x, sbox);
}
