// The entries of the L-tables as the layers by masks compute them, on a state held in two words.
ghost use Rattle.std.specs.Prelude.{◌≡◌};
ghost use Rattle.cipher_boxes.specs.Computed.{lbox_entry};

use crate::LTable;
use masks::ByMasks;

// What a cipher's L-layer makes of a byte in one half of row 0, and of that one half.
pub fn lbox_entry(t: LTable, b: u8) -> u8
    ensures { result ≡ lbox_entry t.cipher t.direction t.from t.to b }
{
    let of = crate::lbox(t.cipher, t.direction);
    crate::entry_by(&ByMasks { of }, t, b)
}
