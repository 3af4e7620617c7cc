// The inverse of Scream's L-box on planes: a network of 54 xors.
ghost use Rattle.std.specs.Prelude.{◌≡◌};
ghost use Rattle.planes.specs.Planes.{Shaped, Goes};
ghost use Rattle.lbox.specs.Lbox;
ghost use Rattle.plane_lbox.specs.Network.{times_at};

use crate::each_row;

// The matrix times the rows of all 64 states, which these sixteen planes hold.
pub fn network(r: [u64; 16]) -> [u64; 16]
    ensures { result ≡ times_at 64 Lbox.scream_inverse r }
{
    let [
        x0,
        x1,
        x2,
        x3,
        x4,
        x5,
        x6,
        x7,
        x8,
        x9,
        x10,
        x11,
        x12,
        x13,
        x14,
        x15,
    ] = r;
    let a0 = x5 ^ x9;
    let a1 = x12 ^ x13;
    let a2 = a0 ^ x7;
    let a3 = x11 ^ a1;
    let a4 = x0 ^ x15;
    let a5 = x6 ^ a3;
    let a6 = a5 ^ a2;
    let a7 = a4 ^ x4;
    let a8 = x15 ^ x2;
    let a9 = x14 ^ x0;
    let a10 = x14 ^ x10;
    let a11 = x2 ^ a5;
    let a12 = x3 ^ a9;
    let a13 = a2 ^ a12;
    let a14 = a9 ^ a2;
    let a15 = a2 ^ a7;
    let a16 = x11 ^ a15;
    let a17 = x8 ^ x4;
    let a18 = a11 ^ a0;
    let a19 = a11 ^ x3;
    let a20 = x10 ^ x6;
    let a21 = a10 ^ x13;
    let a22 = a13 ^ x12;
    let a23 = a3 ^ a14;
    let a24 = a8 ^ a23;
    let a25 = a20 ^ x12;
    let a26 = a17 ^ x1;
    let a27 = a25 ^ a4;
    let a28 = x10 ^ a24;
    let a29 = x7 ^ a27;
    let a30 = a18 ^ a17;
    let a31 = x9 ^ a29;
    let a32 = a19 ^ x4;
    let a33 = a8 ^ x8;
    let a34 = a33 ^ a12;
    let a35 = a10 ^ a30;
    let a36 = x5 ^ a33;
    let a37 = x1 ^ a12;
    let a38 = a23 ^ a26;
    let a39 = a26 ^ a4;
    let a40 = a1 ^ a37;
    let a41 = a37 ^ a20;
    let a42 = a41 ^ x9;
    let a43 = a40 ^ a36;
    let a44 = a34 ^ a0;
    let a45 = a26 ^ x9;
    let a46 = a37 ^ a18;
    let a47 = a44 ^ a25;
    let a48 = a45 ^ a21;
    let a49 = a36 ^ a21;
    let a50 = a40 ^ x4;
    let a51 = a43 ^ x7;
    let a52 = x5 ^ a39;
    let a53 = x13 ^ a52;
    [
        a32, a22, a38, a31, a47, a6, a49, a28, a42, a51, a53, a35, a48, a46, a50, a16,
    ]
}

// The L-box layer of all 64 states.
pub fn layer(x: &mut [[u64; 16]; 8])
    requires { Shaped x.old }
    ensures { Goes (λ b. Lbox.layer Lbox.scream_inverse) x.old x.new }
{
    each_row(x, network);
}
