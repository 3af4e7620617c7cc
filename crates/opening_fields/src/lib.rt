// The opening fields of a book: whether they are there, and what they say.
#![tactic(auto)]

ghost use Rattle.std.specs.Prelude.{◌≡◌, length, get_or};
ghost use Rattle.opening_fields.specs.Opening.{has_opening, opening_number, opening_suite, opening_tests, check_tests};

use suites::refusal::Refusal;
use suites::suite::Suite;

// The byte at a place, 0 past the end.
pub fn byte_at(s: &[u8], i: usize) -> u8
    ensures { result ≡ get_or s.now i 0 }
{
    if i < s.len() { s[i] } else { 0 }
}

// Whether fields 01 and 02 stand at the start of s.
fn is_there(s: &[u8]) -> bool
    ensures { result ≡ has_opening s.now }
{
    if !fields::field::has(0x01, 8, s) {
        return false;
    }
    fields::field::has(0x02, 2, &s[11..])
}

// The book number that field 01 says.
pub fn number(s: &[u8]) -> u64
    ensures { result ≡ opening_number s.now }
{
    if s.len() < 3 {
        return 0;
    }
    fields::number::of(&s[3..])
}

// The suite that field 02 says, listed or not.
pub fn suite(s: &[u8]) -> Suite
    ensures { result ≡ opening_suite s.now }
{
    let cipher = byte_at(s, 14);
    let steps = byte_at(s, 15);
    Suite { cipher, steps }
}

// Refusals 14 and 1 of the opening fields.
pub fn tests(s: &[u8]) -> Result<(), Refusal>
    ensures { result ≡ opening_tests s.now }
{
    if !is_there(s) {
        return Err(Refusal::FieldMalformed);
    }
    if !suite(s).is_listed() {
        return Err(Refusal::SuiteNotListed);
    }
    Ok(())
}

// The same under a key that has to have 16 bytes. Refusals: 2; 14, 1.
#[tactic(auto, unfolding(crate::specs::Opening::check_tests))]
pub fn tests_under(key: &[u8], s: &[u8]) -> Result<(), Refusal>
    ensures { result ≡ check_tests (length key.now) s.now }
{
    if key.len() != 16 {
        return Err(Refusal::KeyLength);
    }
    tests(s)
}
