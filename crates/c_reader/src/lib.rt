// The functions for C that read a book, as include/sealed_book.h declares them: hence numbers for refusals, and a match each, since what is lent
// to be written differs.
#![tactic(auto)]

ghost use Rattle.std.specs.Prelude.{[], ◌∷◌, ◌≡◌};
ghost use Rattle.checker.specs.Check.{check_answer, check_told};
ghost use Rattle.walk.specs.Ciphertext.{ciphertext_place};
ghost use Rattle.fetch.specs.Fetch.{fetch_answer, fetch_told, fetch_buffer, placed_answer, placed_told, placed_buffer};
ghost use Rattle.returned.specs.Returned.{Returns};

#[unsafe(no_mangle)]
pub extern "C" fn sb_check(key: &[u8], book: &[u8], units: &mut u64, calls: &mut u64) -> u32
    ensures { Returns
        (check_told (check_answer key.now book.now))
        (units.old ∷ calls.old ∷ [])
        result
        (units.new ∷ calls.new ∷ []) }
{
    match checker::check::check(key, book) {
        Err(why) => why.number(),
        Ok(totals) => {
            *units = totals.units;
            *calls = totals.calls;
            0
        }
    }
}

#[unsafe(no_mangle)]
pub extern "C" fn sb_fetch(
    key: &[u8],
    book: &[u8],
    k: u64,
    out: &mut [u8],
    source: &mut u64,
    target: &mut u64,
) -> u32
    ensures { Returns
        (fetch_told (fetch_answer key.now book.now k out.old))
        (source.old ∷ target.old ∷ [])
        result
        (source.new ∷ target.new ∷ [])
        × (out.new ≡ fetch_buffer key.now book.now k out.old) }
{
    match fetch::unit::fetch(key, book, k, out) {
        Err(why) => why.number(),
        Ok(lengths) => {
            *source = lengths.source as u64;
            *target = lengths.target as u64;
            0
        }
    }
}

#[unsafe(no_mangle)]
pub extern "C" fn sb_fetch_at(
    key: &[u8],
    book: &[u8],
    number: u64,
    at: usize,
    out: &mut [u8],
    source: &mut u64,
    target: &mut u64,
    next: &mut u64,
) -> u32
    ensures { Returns
        (placed_told (placed_answer key.now book.now number at out.old))
        (source.old ∷ target.old ∷ next.old ∷ [])
        result
        (source.new ∷ target.new ∷ next.new ∷ [])
        × (out.new ≡ placed_buffer key.now book.now number at out.old) }
{
    match fetch::unit::fetch_placed(key, book, number, at, out) {
        Err(why) => why.number(),
        Ok(fetched) => {
            *source = fetched.lengths.source as u64;
            *target = fetched.lengths.target as u64;
            *next = fetched.next as u64;
            0
        }
    }
}

#[unsafe(no_mangle)]
pub extern "C" fn sb_ciphertext(book: &[u8], k: u64, at: &mut u64, len: &mut u64)
    ensures { (at.new ≡ (ciphertext_place k book.now).at)
        × (len.new ≡ (ciphertext_place k book.now).len) }
{
    let part = walk::ciphertext::place(book, k);
    *at = part.at as u64;
    *len = part.len as u64;
}
