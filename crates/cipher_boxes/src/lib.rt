// The entries of the tables as the ciphers themselves compute them: by the layers that a single block goes through, lent the
// tables that those are lent. specs/TableLaw says that these are the paper's entries, and the made ones. So it does of those in on_planes, by
// the boxes on planes, and of those in masked, by products.
#![tactic(auto)]

pub mod masked;
pub mod on_planes;

ghost use Rattle.std.specs.Prelude.{◌≡◌};
ghost use Rattle.sbox.specs.Sbox;
ghost use Rattle.tables.specs.LBox.{matrix};
ghost use Rattle.cipher_boxes.specs.Computed.{sbox_in, lbox_in, sbox_entry, entry_by, lbox_entry};

use printed::Half;
use rounds::Cipher;
use steps::LBoxLayer;
use tables::{Joined, LBox};

#[derive(Clone, Copy, Debug, PartialEq, Eq, Hash)]
pub enum Direction {
    Enciphering,
    Deciphering,
}

// Which table of an L-box: of a cipher in a direction, for one half of the word, giving one half of the product.
#[derive(Clone, Copy, Debug, PartialEq, Eq, Hash)]
pub struct LTable {
    pub cipher: Cipher,
    pub direction: Direction,
    pub from: Half,
    pub to: Half,
}

fn sbox_layer(k: Cipher, d: Direction, w: [u16; 8]) -> [u16; 8]
    ensures { result ≡ Sbox.layer (sbox_in k d) w }
{
    match d {
        Direction::Enciphering => steps::sbox_layer(true, k, w),
        Direction::Deciphering => steps::sbox_layer(false, k, w),
    }
}

fn lbox(k: Cipher, d: Direction) -> LBox
    ensures { matrix result ≡ lbox_in k d }
{
    match d {
        Direction::Enciphering => steps::lbox_of(true, k),
        Direction::Deciphering => steps::lbox_of(false, k),
    }
}

// What the layer of an L-box makes of a byte in one half of row 0, and of that one half.
fn entry_by<L: LBoxLayer>(lbox: &L, t: LTable, b: u8) -> u8
    ensures { result ≡ entry_by (L.lbox lbox.now) t.from t.to b }
{
    let w = lbox.layer([printed::in_half(t.from, b), 0, 0, 0, 0, 0, 0, 0]);
    printed::half_of(t.to, w[0])
}

// What a cipher's S-layer makes of a byte: it stands alone in column 0.
pub fn sbox_entry(k: Cipher, d: Direction, b: u8) -> u8
    ensures { result ≡ sbox_entry k d b }
{
    sbox::column::first(sbox_layer(k, d, sbox::column::alone(b)))
}

// What a cipher's L-layer makes of a byte in one half of row 0, and of that one half.
pub fn lbox_entry(t: LTable, b: u8) -> u8
    ensures { result ≡ lbox_entry t.cipher t.direction t.from t.to b }
{
    let of = lbox(t.cipher, t.direction);
    let low = of.low();
    let high = of.high();
    entry_by(
        &Joined {
            of,
            low: &low,
            high: &high,
        },
        t,
        b,
    )
}
