// A kind, a key and opening fields, which go together.
ghost use Rattle.seals.specs.Parts.{Under};

use kinds::Kind;
use suites::refusal::Refusal;

// What a book is read by: its kind, a key, and its opening fields, of which the key's length and the fields themselves are tested.
#[derive(Clone, Copy)]
pub struct Reading<'a> {
    pub kind: Kind,
    pub key: &'a [u8],
    pub front: &'a [u8],
    ghost under: { Under key.now front.now },
}

impl<'a> Reading<'a> {
    ghost use Rattle.std.specs.Prelude.{◌≡◌, length, IfOk};
    ghost use Rattle.opening_fields.specs.Opening.{check_tests};
    ghost use Rattle.seals.specs.Reading.{tests_of, ReadingOf};

    // Of a book under this key. Refusals: 2; 14, 1.
    pub fn of(key: &'a [u8], book: &'a [u8]) -> Result<Reading<'a>, Refusal>
        ensures tests { tests_of result ≡ check_tests (length key.now) book.now }
        ensures made { IfOk result (ReadingOf key.now book.now) }
    {
        opening_fields::tests_under(key, book)?;
        Ok(Reading {
            kind: Kind::of_book(book),
            key,
            front: &book[..16],
        })
    }
}
