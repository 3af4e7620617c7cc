// Scream's L-box on planes: a network of 54 xors.
ghost use Rattle.std.specs.Prelude.{◌≡◌};
ghost use Rattle.planes.specs.Planes.{Shaped, Goes};
ghost use Rattle.lbox.specs.Lbox;
ghost use Rattle.plane_lbox.specs.Network.{times_at};

use crate::each_row;

// The matrix times the rows of all 64 states, which these sixteen planes hold.
pub fn network(r: [u64; 16]) -> [u64; 16]
    ensures { result ≡ times_at 64 Lbox.scream r }
{
    let [
        x0,
        x1,
        x2,
        x3,
        x4,
        x5,
        x6,
        x7,
        x8,
        x9,
        x10,
        x11,
        x12,
        x13,
        x14,
        x15,
    ] = r;
    let a0 = x7 ^ x2;
    let a1 = x12 ^ x2;
    let a2 = x3 ^ x12;
    let a3 = a1 ^ x10;
    let a4 = x12 ^ x6;
    let a5 = x10 ^ a4;
    let a6 = x10 ^ x3;
    let a7 = a4 ^ x11;
    let a8 = a3 ^ x11;
    let a9 = x9 ^ x6;
    let a10 = x1 ^ x4;
    let a11 = a2 ^ x8;
    let a12 = a9 ^ x10;
    let a13 = x4 ^ a9;
    let a14 = x11 ^ x13;
    let a15 = x1 ^ x15;
    let a16 = x13 ^ x8;
    let a17 = a8 ^ a13;
    let a18 = x7 ^ a13;
    let a19 = x3 ^ x4;
    let a20 = x15 ^ a6;
    let a21 = a14 ^ x4;
    let a22 = a19 ^ x8;
    let a23 = x5 ^ a15;
    let a24 = x7 ^ a22;
    let a25 = a20 ^ a18;
    let a26 = x0 ^ a14;
    let a27 = a26 ^ a18;
    let a28 = x3 ^ x9;
    let a29 = x14 ^ x9;
    let a30 = a19 ^ x1;
    let a31 = a23 ^ a0;
    let a32 = x14 ^ x0;
    let a33 = a32 ^ x15;
    let a34 = a31 ^ a28;
    let a35 = a24 ^ a7;
    let a36 = a31 ^ a21;
    let a37 = a29 ^ a16;
    let a38 = a36 ^ a11;
    let a39 = a37 ^ a3;
    let a40 = a10 ^ a37;
    let a41 = a26 ^ x5;
    let a42 = a22 ^ a41;
    let a43 = a0 ^ a41;
    let a44 = a40 ^ x0;
    let a45 = a29 ^ a43;
    let a46 = a0 ^ a40;
    let a47 = a5 ^ a45;
    let a48 = a30 ^ a45;
    let a49 = a12 ^ a36;
    let a50 = a8 ^ a33;
    let a51 = a46 ^ a7;
    let a52 = a43 ^ x15;
    let a53 = a20 ^ a46;
    [
        a53, a39, a27, a44, a50, a49, a42, a34, a17, a38, a35, a52, a48, a47, a51, a25,
    ]
}

// The L-box layer of all 64 states.
pub fn layer(x: &mut [[u64; 16]; 8])
    requires { Shaped x.old }
    ensures { Goes (λ b. Lbox.layer Lbox.scream) x.old x.new }
{
    each_row(x, network);
}
