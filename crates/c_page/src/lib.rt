// The functions for C that compare a typed sentence with segments, as include/sealed_book.h declares them: hence numbers for refusals.
#![tactic(auto)]

ghost use Rattle.std.specs.Prelude.{[], ◌∷◌, ◌≡◌};
ghost use Rattle.score.specs.Score.{score};
ghost use Rattle.page.specs.Page.{page_answer, page_told, page_buffer};
ghost use Rattle.returned.specs.Returned.{Returns};

#[unsafe(no_mangle)]
pub extern "C" fn sb_score(source: &[u8], typed: &[u8]) -> u32
    ensures { result ≡ score source.now typed.now }
{
    score::score(source, typed)
}

#[unsafe(no_mangle)]
pub extern "C" fn sb_page(
    key: &[u8],
    book: &[u8],
    typed: &[u8],
    page: &mut [u8],
    len: &mut u64,
) -> u32
    ensures { Returns
        (page_told (page_answer key.now book.now typed.now page.old))
        (len.old ∷ [])
        result
        (len.new ∷ [])
        × (page.new ≡ page_buffer key.now book.now typed.now page.old) }
{
    match page::page(key, book, typed, page) {
        Err(why) => why.number(),
        Ok(n) => {
            *len = n as u64;
            0
        }
    }
}
