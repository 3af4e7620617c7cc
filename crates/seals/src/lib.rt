// The seal of one frame of a book: of a unit, and of the close. Functions with a precondition serve our own crates, which have read the frame.
#![tactic(auto)]

pub mod reading;

ghost use Rattle.std.specs.Prelude.{◌++◌, ◌≡◌, ◌+◌, ◌-◌, ◌*◌, ◌≤◌, length, take, drop, Ok};
ghost use Rattle.fields.specs.Unit.{text_in_range};
ghost use Rattle.format.specs.Sealings.{nonce_of};
ghost use Rattle.kinds.specs.Kind.{kind_of};
ghost use Rattle.verifying.specs.Verify.{verify_answer};
ghost use Rattle.parser.specs.Frame.{frame_sealed, close_sealed, frame_at};
ghost use Rattle.opening_fields.specs.Opening.{opening_number, opening_suite};
ghost use Rattle.seals.specs.Parts.{PartsOf, Placed};
ghost use Rattle.seals.specs.Seal.{unit_along, close_along, unit_seal_tests, close_seal_tests};

use crate::reading::Reading;
use format::layout::Along;
use kinds::Kind;
use parser::frame::Frame;
use suites::refusal::Refusal;

// What a frame's seal is made of: the nonce, the header sealed along, where the ciphertext starts and ends in the frame, and the tag.
#[derive(Clone, Copy)]
pub struct Parts {
    pub nonce: [u8; 12],
    pub along: Along,
    pub start: usize,
    pub end: usize,
    pub tag: [u8; 16],
}

// Whether a text of m bytes may begin with these two, its source length.
pub fn is_text(m: usize, high: u8, low: u8) -> bool
    ensures { result ≡ text_in_range m (high * 256 + low) }
{
    let s = fields::field::pair(high, low);
    if m < 2 + s {
        return false;
    }
    fields::unit::in_range(s, m - (2 + s))
}

// The parts of frame n, by their places. The header sealed along is copied from the book: its opening fields, then the h bytes of the frame's header.
fn parts_at(front: &[u8], n: u64, h: usize, start: usize, end: usize, at: usize, s: &[u8]) -> Parts
    requires { (length front.now ≡ 16)
        × Placed s.now h start end at }
    ensures { PartsOf
        (nonce_of (opening_number front.now) n)
        (front.now ++ take h s.now)
        (take (end - start) (drop start s.now) ++ take 16 (drop at s.now))
        s.now result }
{
    Parts {
        nonce: format::layout::nonce(opening_fields::number(front), n),
        along: Along::of(front, &s[..h]),
        start,
        end,
        tag: blockwise::block_at(s, at),
    }
}

// The parts of the unit at the start of s, whose ciphertext has m bytes.
pub fn unit_parts(kind: Kind, front: &[u8], n: u64, m: usize, s: &[u8]) -> Parts
    requires { (length front.now ≡ 16)
        × (frame_at (kind_of kind) n s.now ≡ Ok (Frame.Unit m)) }
    ensures { PartsOf
        (nonce_of (opening_number front.now) n)
        (unit_along (kind_of kind) front.now s.now)
        (frame_sealed (kind_of kind) m s.now)
        s.now result }
{
    let start = kind.ciphertext_at();
    let end = start + m;
    parts_at(front, n, kind.header_len(), start, end, end + 3, s)
}

// The parts of the close at the start of s.
fn close_parts(r: &Reading<'_>, n: u64, s: &[u8]) -> Parts
    requires { frame_at (kind_of r.now.kind) n s.now ≡ Ok Frame.Close }
    ensures { PartsOf
        (nonce_of (opening_number r.now.front.now) n)
        (close_along (kind_of r.now.kind) r.now.front.now s.now)
        (close_sealed (kind_of r.now.kind) s.now)
        s.now result }
{
    let h = r.kind.close_header_len();
    parts_at(r.front, n, h, h, h, h + 3, s)
}

// Opens a frame by its parts, without an output.
fn verify(r: &Reading<'_>, p: &Parts, s: &[u8]) -> Result<[u8; 2], Refusal>
    requires { (p.now.start ≤ p.now.end)
        × (p.now.end ≤ length s.now) }
    ensures { result ≡ verify_answer
        (opening_suite r.now.front.now).cipher (opening_suite r.now.front.now).steps
        r.now.key.now p.now.nonce p.now.along
        (take (p.now.end - p.now.start) (drop p.now.start s.now) ++ p.now.tag) }
{
    let suite = opening_fields::suite(r.front);
    let along = p.along.as_slice();
    verifying::verify::verify_apart(suite, r.key, &p.nonce, along, &s[p.start..p.end], p.tag)
}

// The seal of the unit at the start of s, whose ciphertext has m bytes, and the range of its text. Refusals: 8, 12.
pub fn unit(r: &Reading<'_>, n: u64, m: usize, s: &[u8]) -> Result<(), Refusal>
    requires { frame_at (kind_of r.now.kind) n s.now ≡ Ok (Frame.Unit m) }
    ensures { result ≡ unit_seal_tests (kind_of r.now.kind) r.now.key.now r.now.front.now n m s.now }
{
    let p = unit_parts(r.kind, r.front, n, m, s);
    let [high, low] = verify(r, &p, s)?;
    if !is_text(m, high, low) {
        return Err(Refusal::SegmentLength);
    }
    Ok(())
}

// The seal of the close at the start of s, and that the book ends with it. Refusals: 8, 14.
pub fn close(r: &Reading<'_>, count: u64, s: &[u8]) -> Result<(), Refusal>
    requires { frame_at (kind_of r.now.kind) count s.now ≡ Ok Frame.Close }
    ensures { result ≡ close_seal_tests (kind_of r.now.kind) r.now.key.now r.now.front.now count s.now }
{
    let p = close_parts(r, count, s);
    verify(r, &p, s)?;
    if s.len() != r.kind.close_len() {
        return Err(Refusal::FieldMalformed);
    }
    Ok(())
}
