// The page of a book: how alike a typed sentence is to the source of each unit.
#![tactic(auto)]

ghost use Rattle.std.specs.Prelude.{◌≡◌, ◌++◌, ◌+◌, ◌*◌, ◌≤◌, length, drop};
ghost use Rattle.kinds.specs.Kind.{kind_of};
ghost use Rattle.kinds.specs.Lengths.{header_length};
ghost use Rattle.page.specs.Page.{ciphertext_length, sources_from, rows, page_answer, page_buffer};
ghost use Rattle.page.specs.Units.{UnitThere, Units, PutRow};

use kinds::Kind;
use parser::frame::Frame;
use prepared::Prepared;
use seals::reading::Reading;
use suites::refusal::Refusal;

// The length of the ciphertext of the unit at the start of s.
fn ciphertext_len(kind: Kind, s: &[u8]) -> usize
    requires { header_length (kind_of kind) + 3 ≤ length s.now }
    ensures { result ≡ ciphertext_length (kind_of kind) s.now }
{
    let at = kind.header_len();
    fields::field::pair(s[at + 1], s[at + 2])
}

// The row of the unit at the start of s: the unit's length.
fn unit_row(
    r: &Reading<'_>,
    n: u64,
    s: &[u8],
    prepared: &mut Prepared<'_>,
    text: &mut [u8],
    out: &mut [u8],
) -> usize
    requires { UnitThere (kind_of r.now.kind) r.now.key.now r.now.front.now n s.now
        × (4112 ≤ length text.old)
        × (length out.old ≡ 12) }
    ensures { PutRow
        (kind_of r.now.kind) r.now.key.now r.now.front.now n s.now prepared.old.typed.now prepared.new.typed.now
        text.old text.new out.new result }
{
    let m = ciphertext_len(r.kind, s);
    let len = sources::source(r, n, m, s, text);
    let end = 2 + len;
    let score = prepared.score(&text[2..end]);
    rows::put(len, score, out);
    r.kind.unit_len(m)
}

// The rows of all units, from behind the opening fields on.
fn unit_rows(
    r: &Reading<'_>,
    units: u64,
    s: &[u8],
    prepared: &mut Prepared<'_>,
    text: &mut [u8],
    out: &mut [u8],
)
    requires { Units (kind_of r.now.kind) r.now.key.now r.now.front.now units 0 s.now
        × (4112 ≤ length text.old)
        × (12 * units ≤ length out.old) }
    ensures { out.new
        ≡ rows prepared.old.typed.now (sources_from (kind_of r.now.kind) r.now.key.now r.now.front.now units 0 s.now)
        ++ drop (12 * units) out.old }
{
    let mut place = 0;
    for n in 0..units {
        let at = 12 * (n as usize);
        let end = at + 12;
        let step = unit_row(r, n, &s[place..], prepared, text, &mut out[at..end]);
        place += step;
    }
}

// The page of a book that was checked, at the start of a buffer that has room for it. The typed sentence's trigrams are counted once.
fn write(r: &Reading<'_>, units: u64, s: &[u8], typed: &[u8], out: &mut [u8])
    requires { Units (kind_of r.now.kind) r.now.key.now r.now.front.now units 0 s.now
        × (12 * units ≤ length out.old) }
    ensures { out.new
        ≡ rows typed.now (sources_from (kind_of r.now.kind) r.now.key.now r.now.front.now units 0 s.now)
        ++ drop (12 * units) out.old }
{
    let mut prepared = Prepared::new();
    let mut text = [0u8; 4112];
    prepared.prepare(typed);
    unit_rows(r, units, s, &mut prepared, &mut text, out);
}

// The page of a book and a typed sentence, at the start of a buffer: its length, 12 bytes a unit. The book is checked whole before anything is
// written. Refusals: those of check, then 7.
pub fn page(key: &[u8], book: &[u8], typed: &[u8], out: &mut [u8]) -> Result<usize, Refusal>
    ensures { (result ≡ page_answer key.now book.now typed.now out.old)
        × (out.new ≡ page_buffer key.now book.now typed.now out.old) }
{
    let r = Reading::of(key, book)?;
    let totals = checker::check::check(key, book)?;
    let units = totals.units;
    if ((out.len() / 12) as u64) < units {
        return Err(Refusal::OutputTooShort);
    }
    write(&r, units, &book[16..], typed, out);
    Ok(12 * (units as usize))
}
