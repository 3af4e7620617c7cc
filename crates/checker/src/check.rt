// Checking a book.
ghost use Rattle.std.specs.Prelude.{◌≡◌, suc};
ghost use Rattle.kinds.specs.Kind.{kind_of};
ghost use Rattle.parser.specs.Frame.{most_units};
ghost use Rattle.checker.specs.Check.{checked_at, check_from, check_answer};

use parser::frame::Frame;
use seals::reading::Reading;
use suites::refusal::Refusal;

// The unit count and the call total.
#[derive(Clone, Copy, Debug, PartialEq, Eq)]
pub struct Totals {
    pub units: u64,
    pub calls: u64,
}

// The frame at the start of s with its seal, where the running number is n. Refusals: of a unit 14, 13, 15, 11, 14, 8, 12; of a close
// 14, 15, 8, 14.
fn checked_at(r: &Reading<'_>, n: u64, s: &[u8]) -> Result<Frame, Refusal>
    ensures { result ≡ checked_at (kind_of r.now.kind) r.now.key.now r.now.front.now n s.now }
{
    let frame = parser::frame::at(r.kind, n, s)?;
    match frame {
        Frame::Close => seals::close(r, n, s)?,
        Frame::Unit(m) => seals::unit(r, n, m, s)?,
    }
    Ok(frame)
}

// The frames of a book, from behind its opening fields to its end; each unit is deciphered once, and no text is kept. A loop, whose places have no
// range to go over: where a frame stands is known only from the one before it.
fn check_from(r: &Reading<'_>, s: &[u8]) -> Result<Totals, Refusal>
    ensures { result ≡ check_from (kind_of r.now.kind) r.now.key.now r.now.front.now (suc most_units) 0 0 s.now }
{
    let mut place: usize = 0;
    let mut n: u64 = 0;
    let mut total: u64 = 0;
    loop {
        match checked_at(r, n, &s[place..])? {
            Frame::Close => {
                return Ok(Totals {
                    units: n,
                    calls: total + r.kind.close_calls(),
                });
            }
            Frame::Unit(m) => {
                place += r.kind.unit_len(m);
                n += 1;
                total += r.kind.unit_calls(m);
            }
        }
    }
}

// Whether the bytes are a book under this key: its unit count and its call total. Refusals: 2; 14, 1; of each unit 14, 13, 15, 11, 14, 8, 12;
// of the close 14, 15, 8, 14.
pub fn check(key: &[u8], book: &[u8]) -> Result<Totals, Refusal>
    ensures { result ≡ check_answer key.now book.now }
{
    let r = Reading::of(key, book)?;
    check_from(&r, &book[16..])
}
