// What stands at a place of a book.
ghost use Rattle.std.specs.Prelude.{◌≡◌, ◌≤◌, cond, length, Ok, Some, None};
ghost use Rattle.fields.specs.Field.{field_length};
ghost use Rattle.kinds.specs.Kind.{kind_of};
ghost use Rattle.kinds.specs.Lengths.{header_length};
ghost use Rattle.fields.specs.Languages.{pair_allowed};
ghost use Rattle.parser.specs.Frame.{frame_number, frame_from, frame_to, after_header, has_sealed, unit_tests, close_tests, frame_of, frame_at, ciphertext_of};

use kinds::Kind;
use suites::refusal::Refusal;

// A unit whose ciphertext has so many bytes, or a close.
#[derive(Clone, Copy, Debug, PartialEq, Eq)]
pub enum Frame {
    Unit(usize),
    Close,
}

// A frame is read by its kind, the running number, and what stands from there on: four functions take the three, each as it is lent, and a struct of
// them would be built for each frame and taken apart at once.

// The number that stands there, of two bytes or four, where four stand from there on, as in a whole header of any kind, or in a close that its tag
// follows: a walk then takes the same time for each kind (with a case for each it took 1.07 times that).
fn header_number(kind: Kind, s: &[u8]) -> u64
    requires { 7 ≤ length s.now }
    ensures { result ≡ frame_number (kind_of kind) s.now }
{
    let four = fields::number::four(s[3], s[4], s[5], s[6]);
    let two = fields::field::pair(s[3], s[4]) as u64;
    if kind.number_bytes() == 4 { four } else { two }
}

// The codes of the two languages of a unit.
#[derive(Clone, Copy)]
pub struct Pair {
    pub from: [u8; 2],
    pub to: [u8; 2],
}

// The codes that stand there; for our own crates, which know that a whole header does.
pub fn codes(kind: Kind, s: &[u8]) -> Pair
    requires { header_length (kind_of kind) ≤ length s.now }
    ensures { (result.from ≡ frame_from (kind_of kind) s.now)
        × (result.to ≡ frame_to (kind_of kind) s.now) }
{
    let a = kind.codes_at();
    let b = a + kind.code_bytes();
    let from = [s[a], s[a + 1]];
    let to = [s[b], s[b + 1]];
    Pair { from, to }
}

// Whether a unit may have the languages that stand there.
fn is_pair(kind: Kind, s: &[u8]) -> bool
    requires { header_length (kind_of kind) ≤ length s.now }
    ensures { result ≡ pair_allowed (frame_from (kind_of kind) s.now) (frame_to (kind_of kind) s.now) }
{
    let c = codes(kind, s);
    let from = c.from;
    let to = c.to;
    fields::unit::is_pair(from, to)
}

// A close, where the running number is n. Refusals: 14, 15.
#[tactic(auto, unfolding(crate::specs::Frame::close_tests), using(fields::proofs::Values::after_is))]
fn close_at(kind: Kind, n: u64, s: &[u8]) -> Result<Frame, Refusal>
    ensures { result ≡ frame_of (close_tests (kind_of kind) n s.now) (Ok Frame.Close) }
{
    if !fields::field::has(kind.close_tag(), kind.number_bytes(), s) {
        return Err(Refusal::FieldMalformed);
    }
    let after = kind.close_header_len();
    if !fields::field::has(0x12, 16, &s[after..]) {
        return Err(Refusal::FieldMalformed);
    }
    let count = header_number(kind, s);
    if count != n {
        return Err(Refusal::NumberOutOfOrder);
    }
    Ok(Frame::Close)
}

// How many bytes the ciphertext has, where fields 11 and 12 of a unit stand.
fn sealed_len(s: &[u8]) -> Option<usize>
    ensures { result ≡ cond (has_sealed s.now) (Some (field_length s.now)) None }
{
    if s.len() < 3 {
        return None;
    }
    let m = fields::field::pair(s[1], s[2]);
    if !((3 <= m) & (m <= 8194)) {
        return None;
    }
    if !fields::field::has(0x11, m, s) {
        return None;
    }
    let end = 3 + m;
    if !fields::field::has(0x12, 16, &s[end..]) {
        return None;
    }
    Some(m)
}

// A unit, where the running number is n. Refusals: 14, 13, 15, 11, 14.
fn unit_at(kind: Kind, n: u64, s: &[u8]) -> Result<Frame, Refusal>
    ensures { result ≡ frame_of (unit_tests (kind_of kind) n s.now)
        (Ok (Frame.Unit (field_length (after_header (kind_of kind) s.now)))) }
{
    if !fields::field::has(kind.header_tag(), kind.header_bytes(), s) {
        return Err(Refusal::FieldMalformed);
    }
    if 16777215 <= n {
        return Err(Refusal::TooManyUnits);
    }
    if header_number(kind, s) != n {
        return Err(Refusal::NumberOutOfOrder);
    }
    if !is_pair(kind, s) {
        return Err(Refusal::LanguagesNotAllowed);
    }
    let end = kind.header_len();
    match sealed_len(&s[end..]) {
        Some(m) => Ok(Frame::Unit(m)),
        None => Err(Refusal::FieldMalformed),
    }
}

// How many bytes the ciphertext of the unit at the start of s has, where the running number is n; None where anything else stands there. It is
// for the walk, which asks for nothing more, and is proved to agree with `at`.
pub fn ciphertext_len(kind: Kind, n: u64, s: &[u8]) -> Option<usize>
    ensures { result ≡ ciphertext_of (frame_at (kind_of kind) n s.now) }
{
    if !fields::field::has(kind.header_tag(), kind.header_bytes(), s) {
        return None;
    }
    if 16777215 <= n {
        return None;
    }
    if header_number(kind, s) != n {
        return None;
    }
    if !is_pair(kind, s) {
        return None;
    }
    let end = kind.header_len();
    sealed_len(&s[end..])
}

// The frame at the start of s, where the running number is n. Refusals: of a unit 14, 13, 15, 11, 14; of a close 14, 15.
pub fn at(kind: Kind, n: u64, s: &[u8]) -> Result<Frame, Refusal>
    ensures { result ≡ frame_at (kind_of kind) n s.now }
{
    if opening_fields::byte_at(s, 0) == kind.close_tag() {
        return close_at(kind, n, s);
    }
    unit_at(kind, n, s)
}
