// The entries as the boxes on planes compute them: the circuits and the networks, on sixty-four states of which the first has the byte.
ghost use Rattle.std.specs.Prelude.{◌≡◌};
ghost use Rattle.bits.specs.Bit.{bit};
ghost use Rattle.bits.specs.Table.{tab};
ghost use Rattle.sbox.specs.Sbox;
ghost use Rattle.planes.specs.Planes.{row_at};
ghost use Rattle.plane_lbox.specs.Network.{times_at};
ghost use Rattle.cipher_boxes.specs.Computed.{sbox_in, lbox_in, plane_sbox_entry, plane_lbox_entry};

use crate::{Direction, LTable};
use rounds::Cipher;

// The S-box of a cipher on sixty-four columns.
fn circuit(k: Cipher, d: Direction, w: [u64; 8]) -> [u64; 8]
    ensures { result ≡ Sbox.layer_at 64 (sbox_in k d) w }
{
    match k {
        Cipher::Scream => match d {
            Direction::Enciphering => plane_sbox::scream::sbox(w),
            Direction::Deciphering => plane_sbox::scream_inverse::sbox(w),
        },
        Cipher::IScream => plane_sbox::iscream::sbox(w),
    }
}

// The L-box of a cipher on the sixteen planes of a row.
fn network(k: Cipher, d: Direction, r: [u64; 16]) -> [u64; 16]
    ensures { result ≡ times_at 64 (lbox_in k d) r }
{
    match k {
        Cipher::Scream => match d {
            Direction::Enciphering => plane_lbox::scream::network(r),
            Direction::Deciphering => plane_lbox::scream_inverse::network(r),
        },
        Cipher::IScream => plane_lbox::iscream::network(r),
    }
}

// The planes in which the first state has a word as its row, and the others have zeros.
fn row_alone(x: u16) -> [u64; 16]
    ensures { result ≡ tab 16 (bit x) }
{
    let y = x as u64;
    [
        y % 2,
        y / 2 % 2,
        y / 4 % 2,
        y / 8 % 2,
        y / 16 % 2,
        y / 32 % 2,
        y / 64 % 2,
        y / 128 % 2,
        y / 256 % 2,
        y / 512 % 2,
        y / 1024 % 2,
        y / 2048 % 2,
        y / 4096 % 2,
        y / 8192 % 2,
        y / 16384 % 2,
        y / 32768 % 2,
    ]
}

// The planes in which the first state has a byte as its column, and the others have zeros.
fn alone(b: u8) -> [u64; 8]
    ensures { result ≡ Sbox.alone b }
{
    let w = row_alone(b as u16);
    [w[0], w[1], w[2], w[3], w[4], w[5], w[6], w[7]]
}

// The column of the first state.
fn first(w: [u64; 8]) -> u8
    ensures { result ≡ Sbox.column w 0 }
{
    sbox::column::first([
        (w[0] % 2) as u16,
        (w[1] % 2) as u16,
        (w[2] % 2) as u16,
        (w[3] % 2) as u16,
        (w[4] % 2) as u16,
        (w[5] % 2) as u16,
        (w[6] % 2) as u16,
        (w[7] % 2) as u16,
    ])
}

// The row of the first state.
fn first_row(r: [u64; 16]) -> u16
    ensures { result ≡ row_at r 0 }
{
    let low = first([r[0], r[1], r[2], r[3], r[4], r[5], r[6], r[7]]);
    let high = first([r[8], r[9], r[10], r[11], r[12], r[13], r[14], r[15]]);
    u16::from_be_bytes([high, low])
}

// What a cipher's S-box makes of a byte: it is the column of the first state.
pub fn sbox_entry(k: Cipher, d: Direction, b: u8) -> u8
    ensures { result ≡ plane_sbox_entry k d b }
{
    first(circuit(k, d, alone(b)))
}

// What a cipher's L-box makes of a byte in one half of the first state's row, and of that one half.
pub fn lbox_entry(t: LTable, b: u8) -> u8
    ensures { result ≡ plane_lbox_entry t.cipher t.direction t.from t.to b }
{
    let y = network(
        t.cipher,
        t.direction,
        row_alone(printed::in_half(t.from, b)),
    );
    printed::half_of(t.to, first_row(y))
}
