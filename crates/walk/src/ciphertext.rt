// The ciphertext of unit k, unopened. No key is needed.
ghost use Rattle.std.specs.Prelude.{◌≡◌};
ghost use Rattle.walk.specs.Ciphertext.{ciphertext_place, IsPart};

// A part of a book: where it begins, and its length.
#[derive(Clone, Copy)]
pub struct Part {
    pub at: usize,
    pub len: usize,
}

// Where the ciphertext of unit k stands in a book; the empty part at its start where the opening fields, the walk, or the framing, number or
// languages of k are refused, or there is no unit k.
pub fn place(book: &[u8], k: u64) -> Part
    ensures { result ≡ ciphertext_place k book.now }
{
    match crate::clear::unit(book, k) {
        Ok(clear) => clear.ciphertext,
        Err(_) => Part { at: 0, len: 0 },
    }
}

// The ciphertext of unit k as a part of the book itself, empty where there is none.
pub fn ciphertext(book: &[u8], k: u64) -> &[u8]
    ensures { IsPart result book.entry (ciphertext_place k book.now) }
{
    let part = place(book, k);
    &book[part.at..part.at + part.len]
}
