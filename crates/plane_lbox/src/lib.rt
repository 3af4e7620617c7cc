// The L-box layers of both ciphers on planes, as xor networks. A function with a precondition serves our own crates.
#![tactic(auto)]

// A box has its network and a line over it and the loop over rows, `layer`: a trait with a type for each box would be longer than these lines.

pub mod iscream;
pub mod scream;
pub mod scream_inverse;

ghost use Rattle.std.specs.Prelude.{◌≡◌, List, ℕ, length};
ghost use Rattle.lbox.specs.Lbox.{layer};
ghost use Rattle.planes.specs.Planes.{Shaped, Goes};
ghost use Rattle.plane_lbox.specs.Network.{times_at};

// Sends each of the eight rows of every state through a network: what that is by a matrix, the layer is.
fn each_row<F: Fn([u64; 16]) -> [u64; 16]>(x: &mut [[u64; 16]; 8], network: F)
    requires shape { Shaped x.old }
    requires calls { F.IsAlwaysCallable network }
    ensures { (m : List (List ℕ)) → length m ≡ 16 → ((r y : List ℕ) → F.post network r y → y ≡ times_at 64 m r)
        → Goes (λ b. layer m) x.old x.new }
{
    for row in x.iter_mut() {
        *row = network(*row);
    }
}
