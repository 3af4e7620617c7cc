// The S-box layers on sixty-four states side by side. A function with a precondition serves our own crates.
#![tactic(auto)]

// A box has two names in a module of its own, a line each over its circuit and the loop over columns: a trait with a type for each box would be
// longer than these lines. `Shaped` is asked for here and in `plane_lbox` and `plane_steps`, since a row's length is known only where it is read.

pub mod iscream;
pub mod scream;
pub mod scream_inverse;

ghost use Rattle.std.specs.Prelude.{◌≡◌, List, ℕ};
ghost use Rattle.sbox.specs.Sbox.{layer, layer_at};
ghost use Rattle.planes.specs.Planes.{Shaped, Goes};

// Sends each of the sixteen columns of every state through a circuit: what that is by a table, the layer is.
fn each_column<F: Fn([u64; 8]) -> [u64; 8]>(x: &mut [[u64; 16]; 8], circuit: F)
    requires shape { Shaped x.old }
    requires calls { F.IsAlwaysCallable circuit }
    ensures { (t : List ℕ) → ((w r : List ℕ) → F.post circuit w r → r ≡ layer_at 64 t w) → Goes (λ b. layer t) x.old x.new }
{
    for j in 0..16 {
        let y = circuit(planes::columns::column(x, j));
        planes::columns::put_column(x, j, y);
    }
}
