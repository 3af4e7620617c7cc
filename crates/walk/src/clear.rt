// What the fields of a unit say in the clear. No key is needed, and no seal is tested.
ghost use Rattle.std.specs.Prelude.{◌≡◌, ◌+◌, ◌^◌, ◌<◌, length, Ok};
ghost use Rattle.kinds.specs.Kind.{kind_of};
ghost use Rattle.parser.specs.Frame.{frame_at};
ghost use Rattle.walk.specs.Clear.{code_of, unit_says, clear_of, placed_clear, unit_clear};

use crate::ciphertext::Part;
use kinds::Kind;
use parser::frame::Frame;
use suites::refusal::Refusal;

// A language code: its letters, then zeros, and how many letters it has. The C interface lends these four bytes and a length, so both stand here.
#[derive(Clone, Copy)]
pub struct Code {
    pub bytes: [u8; 4],
    pub len: usize,
}

// A unit's place, its language codes, where its ciphertext stands, and where the next unit or the close begins.
#[derive(Clone, Copy)]
pub struct Clear {
    pub at: usize,
    pub from: Code,
    pub to: Code,
    pub ciphertext: Part,
    pub next: usize,
}

// A code of a kind.
fn letters(kind: Kind, c: [u8; 2]) -> Code
    ensures { result ≡ code_of c }
{
    let bytes = [c[0], c[1], 0, 0];
    Code {
        bytes,
        len: kind.code_bytes(),
    }
}

// The unit at the start of s, whose ciphertext has m bytes; s begins at byte `at` of a book.
fn unit_clear(kind: Kind, n: u64, at: usize, m: usize, s: &[u8]) -> Clear
    requires { (frame_at (kind_of kind) n s.now ≡ Ok (Frame.Unit m))
        × (at + length s.now < 2 ^ 64) }
    ensures { result ≡ unit_says (kind_of kind) at s.now m }
{
    let pair = parser::frame::codes(kind, s);
    Clear {
        at,
        from: letters(kind, pair.from),
        to: letters(kind, pair.to),
        ciphertext: Part {
            at: at + kind.ciphertext_at(),
            len: m,
        },
        next: at + kind.unit_len(m),
    }
}

// The frame at the start of s, likewise.
fn frame_clear(kind: Kind, n: u64, at: usize, s: &[u8]) -> Result<Clear, Refusal>
    requires { at + length s.now < 2 ^ 64 }
    ensures { result ≡ clear_of (kind_of kind) at s.now (frame_at (kind_of kind) n s.now) }
{
    match parser::frame::at(kind, n, s)? {
        Frame::Close => Err(Refusal::NoSuchUnit),
        Frame::Unit(m) => Ok(unit_clear(kind, n, at, m, s)),
    }
}

// Of unit n, where its header stands at byte `at` of the book. Refusals: 14, 1; of a unit 14, 13, 15, 11, 14; of a close 14, 15, then 16.
pub fn placed(book: &[u8], n: u64, at: usize) -> Result<Clear, Refusal>
    ensures { result ≡ placed_clear n at book.now }
{
    opening_fields::tests(book)?;
    let from = at.min(book.len());
    frame_clear(Kind::of_book(book), n, at, &book[from..])
}

// Of unit k, to which it walks. Refusals: 14, 1; of each unit up to k 14, 13, 15, 11, 14; of the close 14, 15, then 16.
pub fn unit(book: &[u8], k: u64) -> Result<Clear, Refusal>
    ensures { result ≡ unit_clear k book.now }
{
    opening_fields::tests(book)?;
    let place = crate::to(Kind::of_book(book), k, &book[16..]);
    placed(book, place.number, 16 + place.at)
}
