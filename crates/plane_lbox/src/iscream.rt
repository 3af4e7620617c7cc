// iScream's L-box, its own inverse, on planes: a network of 57 xors.
ghost use Rattle.std.specs.Prelude.{◌≡◌};
ghost use Rattle.planes.specs.Planes.{Shaped, Goes};
ghost use Rattle.lbox.specs.Lbox;
ghost use Rattle.plane_lbox.specs.Network.{times_at};

use crate::each_row;

// The matrix times the rows of all 64 states, which these sixteen planes hold.
pub fn network(r: [u64; 16]) -> [u64; 16]
    ensures { result ≡ times_at 64 Lbox.iscream r }
{
    let [
        x0,
        x1,
        x2,
        x3,
        x4,
        x5,
        x6,
        x7,
        x8,
        x9,
        x10,
        x11,
        x12,
        x13,
        x14,
        x15,
    ] = r;
    let a0 = x8 ^ x2;
    let a1 = x8 ^ x9;
    let a2 = x0 ^ a0;
    let a3 = x5 ^ x0;
    let a4 = x7 ^ x11;
    let a5 = x4 ^ a3;
    let a6 = x1 ^ a2;
    let a7 = a5 ^ x1;
    let a8 = a4 ^ x9;
    let a9 = x9 ^ x3;
    let a10 = x14 ^ x3;
    let a11 = x12 ^ x0;
    let a12 = x1 ^ x13;
    let a13 = a7 ^ a1;
    let a14 = x6 ^ x2;
    let a15 = a11 ^ a12;
    let a16 = a1 ^ a15;
    let a17 = a7 ^ a14;
    let a18 = x11 ^ a13;
    let a19 = x7 ^ a16;
    let a20 = x14 ^ x7;
    let a21 = a10 ^ x6;
    let a22 = x6 ^ x10;
    let a23 = a10 ^ a15;
    let a24 = x0 ^ a20;
    let a25 = x15 ^ x4;
    let a26 = a0 ^ a20;
    let a27 = a23 ^ x2;
    let a28 = x3 ^ a17;
    let a29 = x14 ^ a14;
    let a30 = x11 ^ a22;
    let a31 = a12 ^ x12;
    let a32 = a26 ^ a11;
    let a33 = x10 ^ a9;
    let a34 = x4 ^ a30;
    let a35 = a32 ^ x10;
    let a36 = a9 ^ a30;
    let a37 = a31 ^ a25;
    let a38 = x15 ^ a3;
    let a39 = x5 ^ a36;
    let a40 = a33 ^ a24;
    let a41 = a3 ^ a36;
    let a42 = a6 ^ a33;
    let a43 = a40 ^ x13;
    let a44 = a38 ^ x13;
    let a45 = a25 ^ a11;
    let a46 = a2 ^ a34;
    let a47 = a37 ^ a39;
    let a48 = a21 ^ a44;
    let a49 = a30 ^ a24;
    let a50 = a49 ^ x15;
    let a51 = a37 ^ a3;
    let a52 = a4 ^ a45;
    let a53 = x8 ^ a52;
    let a54 = a47 ^ a26;
    let a55 = a44 ^ a8;
    let a56 = a45 ^ a29;
    [
        a54, a50, a55, a53, a43, a35, a19, a28, a48, a56, a51, a27, a41, a46, a18, a42,
    ]
}

// The L-box layer of all 64 states.
pub fn layer(x: &mut [[u64; 16]; 8])
    requires { Shaped x.old }
    ensures { Goes (λ b. Lbox.layer Lbox.iscream) x.old x.new }
{
    each_row(x, network);
}
