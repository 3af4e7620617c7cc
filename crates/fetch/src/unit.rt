// Fetching unit k.
ghost use Rattle.std.specs.Prelude.{◌≡◌, ◌+◌, ◌^◌, ◌≤◌, ◌<◌, length, drop, Ok};
ghost use Rattle.kinds.specs.Kind.{kind_of};
ghost use Rattle.parser.specs.Frame.{frame_at};
ghost use Rattle.seals.specs.Seal.{unit_opened};
ghost use Rattle.fetch.specs.Fetch.{text_outcome, unit_outcome, outcome_here, text_at, next_of};
ghost use Rattle.fetch.specs.Fetch.{fetch_answer, fetch_buffer, placed_answer, placed_buffer};
ghost use Rattle.fetch.specs.Hands.{Hands, HandsNext};

use parser::frame::Frame;
use seals::reading::Reading;
use suites::refusal::Refusal;

// The lengths of source and target.
#[derive(Clone, Copy, Debug, PartialEq, Eq)]
pub struct Lengths {
    pub source: usize,
    pub target: usize,
}

// The same, and where the next unit or the close begins.
#[derive(Clone, Copy, Debug, PartialEq, Eq)]
pub struct Fetched {
    pub lengths: Lengths,
    pub next: usize,
}

// The source and the target of a text at the output's start. Refusals: 12, 7.
fn hand_out(text: &[u8], out: &mut [u8]) -> Result<Lengths, Refusal>
    requires { 2 ≤ length text.now }
    ensures { Hands
        (text_outcome text.now (length out.old))
        text.now out.old result out.new }
{
    let m = text.len();
    if !seals::is_text(m, text[0], text[1]) {
        return Err(Refusal::SegmentLength);
    }
    if out.len() < m - 2 {
        return Err(Refusal::OutputTooShort);
    }
    let s = fields::field::pair(text[0], text[1]);
    blockwise::copy(&text[2..], out);
    Ok(Lengths {
        source: s,
        target: m - 2 - s,
    })
}

// The unit at the start of s, whose ciphertext has m bytes. It is deciphered once, in a working buffer, and nothing is handed out before its
// tag has been compared. Refusals: 8, 12, 7.
fn unit(r: &Reading<'_>, n: u64, m: usize, s: &[u8], out: &mut [u8]) -> Result<Lengths, Refusal>
    requires { frame_at (kind_of r.now.kind) n s.now ≡ Ok (Frame.Unit m) }
    ensures { Hands
        (unit_outcome (kind_of r.now.kind) r.now.key.now r.now.front.now n m s.now (length out.old))
        (unit_opened (kind_of r.now.kind) r.now.key.now r.now.front.now n m s.now)
        out.old result out.new }
{
    let suite = opening_fields::suite(r.front);
    let p = seals::unit_parts(r.kind, r.front, n, m, s);
    let mut text = [0u8; 8208];
    let answer = verifying::within::open_within(
        suite,
        r.key,
        &p.nonce,
        p.along.as_slice(),
        &s[p.start..p.end],
        p.tag,
        &mut text,
    );
    answer?;
    hand_out(&text[..m], out)
}

// What stands at the start of s, which begins at byte `at` of the book, where the walk has ended with the running number n. Refusals: of a unit
// 14, 13, 15, 11, 14, 8, 12, 7; of a close 14, 15, 8, 14, 16.
fn fetch_frame(
    r: &Reading<'_>,
    n: u64,
    at: usize,
    s: &[u8],
    out: &mut [u8],
) -> Result<Fetched, Refusal>
    requires { at + length s.now < 2 ^ 64 }
    ensures { HandsNext
        (outcome_here (kind_of r.now.kind) r.now.key.now r.now.front.now n s.now (length out.old))
        (text_at (kind_of r.now.kind) r.now.key.now r.now.front.now n s.now)
        (next_of (kind_of r.now.kind) at (frame_at (kind_of r.now.kind) n s.now))
        out.old result out.new }
{
    match parser::frame::at(r.kind, n, s)? {
        Frame::Close => {
            seals::close(r, n, s)?;
            Err(Refusal::NoSuchUnit)
        }
        Frame::Unit(m) => {
            let lengths = unit(r, n, m, s, out)?;
            Ok(Fetched {
                lengths,
                next: at + r.kind.unit_len(m),
            })
        }
    }
}

// What stands at byte `at` of a book, as unit n; past the end nothing. Refusals: those of fetch_frame.
fn at_place(
    r: &Reading<'_>,
    book: &[u8],
    n: u64,
    at: usize,
    out: &mut [u8],
) -> Result<Fetched, Refusal>
    ensures { HandsNext
        (outcome_here (kind_of r.now.kind) r.now.key.now r.now.front.now n (drop at book.now) (length out.old))
        (text_at (kind_of r.now.kind) r.now.key.now r.now.front.now n (drop at book.now))
        (next_of (kind_of r.now.kind) at (frame_at (kind_of r.now.kind) n (drop at book.now)))
        out.old result out.new }
{
    let from = at.min(book.len());
    fetch_frame(r, n, at, &book[from..], out)
}

// Source and target of unit n at the output's start, where its header stands at byte `at` of the book; every other byte stays as it was. It is for
// a caller that goes from one unit to the next. Refusals: 2; 14, 1; of a unit 14, 13, 15, 11, 14, 8, 12, then 7; of a close 14, 15, 8, 14, then
// 16.
pub fn fetch_placed(
    key: &[u8],
    book: &[u8],
    n: u64,
    at: usize,
    out: &mut [u8],
) -> Result<Fetched, Refusal>
    ensures { (result ≡ placed_answer key.now book.now n at out.old)
        × (out.new ≡ placed_buffer key.now book.now n at out.old) }
{
    let r = Reading::of(key, book)?;
    at_place(&r, book, n, at, out)
}

// The same of unit k, to which it walks once the key and the opening fields are tested. Refusals: 2; 14, 1; of each unit before k 14, 13, 15,
// 11, 14; of unit k these, 8, 12, then 7; of the close 14, 15, 8, 14, then 16.
pub fn fetch(key: &[u8], book: &[u8], k: u64, out: &mut [u8]) -> Result<Lengths, Refusal>
    ensures { (result ≡ fetch_answer key.now book.now k out.old)
        × (out.new ≡ fetch_buffer key.now book.now k out.old) }
{
    let r = Reading::of(key, book)?;
    let p = walk::to(r.kind, k, &book[16..]);
    let fetched = at_place(&r, book, p.number, 16 + p.at, out)?;
    Ok(fetched.lengths)
}
