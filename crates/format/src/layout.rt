// Opening fields, headers of units and close, and nonces.
ghost use Rattle.std.specs.Prelude.{◌≡◌, ◌++◌, ◌+◌, ◌≤◌, length, drop};
ghost use Rattle.bits.specs.Bytes.{big_endian};
ghost use Rattle.fields.specs.Field.{field};
ghost use Rattle.kinds.specs.Kind.{kind_of};
ghost use Rattle.kinds.specs.Lengths.{header_length, close_header_length};
ghost use Rattle.format.specs.Sealings.{opening_fields, unit_header, close_header, nonce_of};

use kinds::Kind;
use std::marker::Model;
use suites::suite::Suite;

// The header sealed along with a unit or a close: a string of bytes, with room for the longest. The room behind it is 0.
#[derive(Clone, Copy)]
pub struct Along {
    bytes: [u8; 48],
    len: usize,
}

impl Model for Along {
    ghost use Rattle.std.specs.Prelude.{◌≡◌, List, ◌++◌, ℕ, ◌-◌, ◌≤◌, length, take, drop, replicate};
    ghost use Rattle.format.specs.Room.{room_behind};

    ghost Value = { List ℕ };

    ghost view = { λ a. take a.len a.bytes };

    ghost invariant = { λ a. (a.len ≤ 48) × (length a.bytes ≡ 48) × (drop a.len a.bytes ≡ replicate (48 - a.len) 0) };

    ghost inverse = { λ s. record { bytes = s ++ replicate (48 - length s) 0; len = length s } };

    ghost inverse_ok = { λ a h. let p = room_behind 48 a.len a.bytes h.0 h.1 h.2 in λ i. record { bytes = p.0 i; len = p.1 i } };
}

impl Along {
    // Opening fields and the header of a frame behind them; for our own crates, whose headers are short.
    pub fn of(front: &[u8], header: &[u8]) -> Along
        requires { length front.now + length header.now ≤ 48 }
        ensures { result ≡ front.now ++ header.now }
    {
        let mut bytes = [0u8; 48];
        crate::bytes::join(front, header, &mut bytes);
        Along {
            bytes,
            len: front.len() + header.len(),
        }
    }

    // Its bytes.
    pub fn as_slice(&self) -> &[u8]
        ensures { result.now ≡ self.now }
    {
        &self.bytes[..self.len]
    }
}

// The fields 01 and 02.
pub fn opening(suite: Suite, number: u64) -> [u8; 16]
    ensures { result ≡ opening_fields suite number }
{
    let mut b = [
        0x01,
        0x00,
        0x08,
        0,
        0,
        0,
        0,
        0,
        0,
        0,
        0,
        0x02,
        0x00,
        0x02,
        suite.cipher,
        suite.steps,
    ];
    b[3..11].copy_from_slice(&number.to_be_bytes());
    b
}

// A field whose value is the number n in w bytes and more behind it, at the start of an output.
fn put_header(tag: u8, n: u64, w: usize, more: &[u8], out: &mut [u8])
    requires { 3 + (w + length more.now) ≤ length out.old }
    ensures { out.new ≡ field tag (big_endian w n ++ more.now)
        ++ drop (3 + (w + length more.now)) out.old }
{
    let head = fields::field::head(tag, w + more.len());
    blockwise::copy(&head, out);
    crate::bytes::number_then(n, w, more, &mut out[3..]);
}

// The opening fields, 16 bytes, and such a field behind them, tag and length and a value for which the rest has room.
fn along_of(suite: Suite, number: u64, tag: u8, n: u64, w: usize, more: &[u8]) -> Along
    requires { w + length more.now ≤ 29 }
    ensures is { result ≡ opening_fields suite number ++ field tag (big_endian w n ++ more.now) }
    ensures long { length result ≡ 19 + (w + length more.now) }
{
    let mut header = [0u8; 32];
    put_header(tag, n, w, more, &mut header);
    Along::of(&opening(suite, number), &header[..3 + (w + more.len())])
}

// The header sealed along with unit n.
pub fn unit_along(
    kind: Kind,
    suite: Suite,
    number: u64,
    n: u64,
    from: [u8; 2],
    to: [u8; 2],
) -> Along
    ensures is { result ≡ opening_fields suite number ++ unit_header (kind_of kind) n (from ++ to) }
    ensures long { length result ≡ 16 + header_length (kind_of kind) }
{
    let codes = [from[0], from[1], to[0], to[1]];
    along_of(
        suite,
        number,
        kind.header_tag(),
        n,
        kind.number_bytes(),
        &codes,
    )
}

// The header sealed along with the close after n units.
pub fn close_along(kind: Kind, suite: Suite, number: u64, n: u64) -> Along
    ensures is { result ≡ opening_fields suite number ++ close_header (kind_of kind) n }
    ensures long { length result ≡ 16 + close_header_length (kind_of kind) }
{
    along_of(suite, number, kind.close_tag(), n, kind.number_bytes(), b"")
}

// The nonce of unit n, or of the close after n units.
pub fn nonce(number: u64, n: u64) -> [u8; 12]
    ensures { result ≡ nonce_of number n }
{
    let mut b = [0u8; 12];
    b[..8].copy_from_slice(&number.to_be_bytes());
    b[8..].copy_from_slice(&n.to_be_bytes()[4..]);
    b
}
