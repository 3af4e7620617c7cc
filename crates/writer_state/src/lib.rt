// What a writer holds, and the tests of start, add and close.
#![tactic(auto)]

ghost use Rattle.std.specs.Prelude.{◌≡◌};
ghost use Rattle.writer_state.specs.Writer.{no_writer};

use suites::suite::Suite;

pub mod tests;

// What a book's writer holds between calls. Any value of it is answered. C keeps it as 64 bytes and hands back any, so `closed` is a
// field, and no type of its own. It holds the key, so it is neither printed nor compared.
#[derive(Clone, Copy)]
pub struct Writer {
    pub suite: Suite,
    pub key: [u8; 16],
    pub number: u64,
    pub place: usize,
    pub count: u64,
    pub total: u64,
    pub closed: bool,
}

// A closed writer of zeros.
pub fn no_writer() -> Writer
    ensures { result ≡ no_writer }
{
    Writer {
        suite: Suite {
            cipher: 0,
            steps: 0,
        },
        key: [0u8; 16],
        number: 0,
        place: 0,
        count: 0,
        total: 0,
        closed: true,
    }
}
