// Going over a book without its seals: the walk to unit k, what a unit's fields say in the clear, and the ciphertext of a unit.
#![tactic(auto)]

pub mod ciphertext;
pub mod clear;

ghost use Rattle.std.specs.Prelude.{◌≡◌};
ghost use Rattle.kinds.specs.Kind.{kind_of};
ghost use Rattle.walk.specs.Walk.{walk_to};

use kinds::Kind;

// A place behind a book's opening fields, and how many units stand before it.
#[derive(Clone, Copy)]
pub struct Place {
    pub number: u64,
    pub at: usize,
}

// 0, whatever two bytes stand 1,024 and 1,152 bytes ahead. The walk waits for memory, since a unit's place is known only from the one before it: to
// read ahead brings the bytes nearer by the time it comes there. The remainder is 0 for every number, but the compiler has to read them to know.
fn read_ahead(s: &[u8]) -> u64
    ensures { result ≡ 0 }
{
    if s.len() <= 1152 {
        return 0;
    }
    let b = (s[1024] as u64) + (s[1152] as u64);
    (b * b * b + 2 * b) % 3
}

// Where the walk to unit k ends: past the units before it, or at the first frame on the way that is no unit or is refused. The book's bytes
// behind its opening fields are s. `ahead` is 0 throughout, and is tested only so that the bytes ahead are read. A while loop, whose places have no
// range to go over: where a unit stands is known only from the one before it.
pub fn to(kind: Kind, k: u64, s: &[u8]) -> Place
    ensures { result ≡ walk_to (kind_of kind) k s.now }
{
    let mut number: u64 = 0;
    let mut at: usize = 0;
    let mut ahead: u64 = 0;
    while (number < k) & (ahead == 0) {
        let rest = &s[at..];
        let Some(m) = parser::frame::ciphertext_len(kind, number, rest) else {
            return Place { number, at };
        };
        number += 1;
        at += kind.unit_len(m);
        ahead = read_ahead(rest);
    }
    Place { number, at }
}
