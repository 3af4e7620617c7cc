// The same in every one of sixty-four states.
ghost use Rattle.std.specs.Prelude.{◌≡◌, ◌*◌, ◌<◌};
ghost use Rattle.bits.specs.Bit.{bit};
ghost use Rattle.plane_tweakeys.specs.Shared;
ghost use Rattle.plane_tweakeys.specs.Shared.{Shared};

// Bit j of c, sixty-four times.
#[tactic(auto, unfolding(bits::specs::Bit::bit))]
fn plane(c: u16, j: usize) -> u64
    requires { j < 16 }
    ensures { result ≡ bit c j * 18446744073709551615 }
{
    u64::from((c >> j) % 2) * u64::MAX
}

// The planes of a row that is c in every state.
pub fn spread(c: u16) -> [u64; 16]
    ensures { result ≡ Shared.spread c }
{
    let mut r = [0u64; 16];
    for (j, p) in r.iter_mut().enumerate() {
        *p = plane(c, j);
    }
    r
}

// The planes of the state w, sixty-four times, in x.
pub fn share(w: [u16; 8], x: &mut [[u64; 16]; 8])
    ensures { Shared w x.new }
{
    for (i, r) in x.iter_mut().enumerate() {
        *r = spread(w[i]);
    }
}
