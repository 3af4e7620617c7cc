// The functions for C that need no key, as include/sealed_book.h declares them. None tests a seal. What C lends stands in their parameters, one
// by one as C declares them, and so in those of `put`.
#![tactic(auto)]

ghost use Rattle.std.specs.Prelude.{◌≡◌};
ghost use Rattle.returned.specs.Returned.{returned};
ghost use Rattle.opening_fields.specs.Opening.{opening_number, opening_suite, opening_tests};
ghost use Rattle.walk.specs.Clear.{placed_clear, unit_clear};
ghost use Rattle.suites.specs.Told.{by_answer};
ghost use Rattle.c_clear.specs.Lent.{lent, clear_answer, at_after, lent_after};

use suites::refusal::Refusal;
use walk::clear::Clear;

#[unsafe(no_mangle)]
pub extern "C" fn sb_info(book: &[u8], cipher: &mut u8, steps: &mut u8, number: &mut u64) -> u32
    ensures { (result ≡ returned (opening_tests book.now))
        × (cipher.new ≡ by_answer (opening_tests book.now) (opening_suite book.now).cipher cipher.old)
        × (steps.new ≡ by_answer (opening_tests book.now) (opening_suite book.now).steps steps.old)
        × (number.new ≡ by_answer (opening_tests book.now) (opening_number book.now) number.old) }
{
    match opening_fields::tests(book) {
        Err(why) => why.number(),
        Ok(()) => {
            let suite = opening_fields::suite(book);
            *cipher = suite.cipher;
            *steps = suite.steps;
            *number = opening_fields::number(book);
            0
        }
    }
}

// Where the unit begins, put where C lent it.
fn place(said: Result<Clear, Refusal>, at: &mut u64)
    ensures { at.new ≡ at_after said at.old }
{
    if let Ok(c) = said {
        *at = c.at as u64;
    }
}

// What else was said in the clear, put likewise.
fn put(
    said: Result<Clear, Refusal>,
    from: &mut [u8; 4],
    fromlen: &mut u64,
    to: &mut [u8; 4],
    tolen: &mut u64,
    start: &mut u64,
    len: &mut u64,
    next: &mut u64,
) -> u32
    ensures { (result ≡ returned (clear_answer said))
        × (lent from.new fromlen.new to.new tolen.new
        start.new len.new next.new
        ≡ lent_after said
        (lent from.old fromlen.old to.old tolen.old
        start.old len.old next.old)) }
{
    match said {
        Err(why) => why.number(),
        Ok(c) => {
            let one = c.from.bytes;
            let two = c.to.bytes;
            *from = one;
            *fromlen = c.from.len as u64;
            *to = two;
            *tolen = c.to.len as u64;
            *start = c.ciphertext.at as u64;
            *len = c.ciphertext.len as u64;
            *next = c.next as u64;
            0
        }
    }
}

#[unsafe(no_mangle)]
pub extern "C" fn sb_unit_at(
    book: &[u8],
    number: u64,
    at: usize,
    from: &mut [u8; 4],
    fromlen: &mut u64,
    to: &mut [u8; 4],
    tolen: &mut u64,
    start: &mut u64,
    len: &mut u64,
    next: &mut u64,
) -> u32
    ensures { (result ≡ returned (clear_answer (placed_clear number at book.now)))
        × (lent from.new fromlen.new to.new tolen.new
        start.new len.new next.new
        ≡ lent_after (placed_clear number at book.now)
        (lent from.old fromlen.old to.old tolen.old
        start.old len.old next.old)) }
{
    let said = walk::clear::placed(book, number, at);
    put(said, from, fromlen, to, tolen, start, len, next)
}

#[unsafe(no_mangle)]
pub extern "C" fn sb_unit(
    book: &[u8],
    k: u64,
    at: &mut u64,
    from: &mut [u8; 4],
    fromlen: &mut u64,
    to: &mut [u8; 4],
    tolen: &mut u64,
    start: &mut u64,
    len: &mut u64,
    next: &mut u64,
) -> u32
    ensures { (result ≡ returned (clear_answer (unit_clear k book.now)))
        × (at.new ≡ at_after (unit_clear k book.now) at.old)
        × (lent from.new fromlen.new to.new tolen.new
        start.new len.new next.new
        ≡ lent_after (unit_clear k book.now)
        (lent from.old fromlen.old to.old tolen.old
        start.old len.old next.old)) }
{
    let said = walk::clear::unit(book, k);
    place(said, at);
    put(said, from, fromlen, to, tolen, start, len, next)
}
