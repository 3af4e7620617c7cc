// The fifteen tables, made from the matrices and bit equations. No table is used.
#![tactic(auto)]

ghost use Rattle.std.specs.Prelude.{◌≡◌, get_or};
ghost use Rattle.bits.specs.Table.{tab};
ghost use Rattle.sbox.specs.Sbox;
ghost use Rattle.printed.specs.Rule.{made, product};
ghost use Rattle.made_tables.specs.Boxes.{matrix_of, sbox_of};
ghost use Rattle.made_tables.specs.Makes.{Makes};

use printed::Half;
use std::array;

// Whose boxes.
#[derive(Clone, Copy, Debug, PartialEq, Eq, Hash)]
pub enum Boxes {
    Scream,
    ScreamInverse,
    IScream,
}

// In each group Scream's, its inverse's, iScream's.
const GROUP: [Boxes; 3] = [Boxes::Scream, Boxes::ScreamInverse, Boxes::IScream];

// Of each of an L-box's four tables, L1,1, L1,2, L2,1, L2,2, the half of the word in which the byte stands and the half of the product that
// is the entry.
const HALVES: [(Half, Half); 4] = [
    (Half::Low, Half::High),
    (Half::Low, Half::Low),
    (Half::High, Half::High),
    (Half::High, Half::Low),
];

fn matrix(x: Boxes) -> [[u8; 16]; 16]
    ensures { result ≡ matrix_of x }
{
    match x {
        Boxes::Scream => lbox::matrices::scream(),
        Boxes::ScreamInverse => lbox::matrices::scream_inverse(),
        Boxes::IScream => lbox::matrices::iscream(),
    }
}

// The bit equations of an S-box, on all columns of a state.
fn equations(x: Boxes, w: [u16; 8]) -> [u16; 8]
    ensures { result ≡ Sbox.layer (sbox_of x) w }
{
    match x {
        Boxes::Scream => sbox::scream::layer(w),
        Boxes::ScreamInverse => sbox::scream_inverse::layer(w),
        Boxes::IScream => sbox::iscream::layer(w),
    }
}

// A table of an L-box: the matrix times each byte in its half of the word, and of the product one half.
fn lbox_table(x: Boxes, from: Half, to: Half) -> [u8; 256]
    ensures { result ≡ tab 256 (made (product (matrix_of x) from to)) }
{
    let m = matrix(x);
    // `as`, here and below: an index under 256 is the byte, and try_from would have a refusal that can't come.
    array::from_fn(|b| printed::half_of(to, lbox::times(m, printed::in_half(from, b as u8))))
}

// An entry of an S-box: the equations run on the byte as a column.
fn sbox_entry(x: Boxes, b: u8) -> u8
    ensures { result ≡ get_or (sbox_of x) b 0 }
{
    sbox::column::first(equations(x, sbox::column::alone(b)))
}

// An S-box, by its entries.
fn sbox_table(x: Boxes) -> [u8; 256]
    ensures { result ≡ sbox_of x }
{
    array::from_fn(|b| sbox_entry(x, b as u8))
}

// The table at a place; past the last there is none.
pub fn make(place: usize) -> Option<[u8; 256]>
    ensures { Makes place result }
{
    if place < 12 {
        let (from, to) = HALVES[place % 4];
        return Some(lbox_table(GROUP[place / 4], from, to));
    }
    let x = GROUP.get(place - 12)?;
    Some(sbox_table(*x))
}
