// Sums of states, sixty-four side by side.
ghost use Rattle.std.specs.Prelude.{◌≡◌};
ghost use Rattle.planes.specs.Planes.{Shaped, Goes, lane};
ghost use Rattle.state.specs.Rows.{add_rows};
ghost use Rattle.rounds.specs.Cipher.{add_constant};
ghost use Rattle.plane_tweakeys.specs.PlaneRows.{add_planes};

// Two rows of planes added.
pub fn add_row(r: [u64; 16], s: [u64; 16]) -> [u64; 16]
    ensures { result ≡ add_planes r s }
{
    let mut y = r;
    for (j, p) in y.iter_mut().enumerate() {
        *p ^= s[j];
    }
    y
}

// t added to x, each state to its own.
pub fn add(x: &mut [[u64; 16]; 8], t: &[[u64; 16]; 8])
    ensures { Goes (λ b w. add_rows w (lane t.now b)) x.old x.new }
{
    for (i, r) in x.iter_mut().enumerate() {
        *r = add_row(*r, t[i]);
    }
}

// x and t added, each state to its own, in y.
pub fn sum(x: &[[u64; 16]; 8], t: &[[u64; 16]; 8], y: &mut [[u64; 16]; 8])
    ensures { Goes (λ b w. add_rows w (lane t.now b)) x.now y.new }
{
    for (i, r) in y.iter_mut().enumerate() {
        *r = add_row(x[i], t[i]);
    }
}

// A round constant added to every state. The rows that stay as they are keep the shape that they had.
pub fn add_constant(x: &mut [[u64; 16]; 8], c: u16)
    requires { Shaped x.old }
    ensures { Goes (λ b. add_constant c) x.old x.new }
{
    x[0] = add_row(x[0], crate::sharing::spread(c));
}
