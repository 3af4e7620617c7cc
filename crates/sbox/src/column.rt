// One column of a state.
ghost use Rattle.std.specs.Prelude.{◌≡◌, ◌<◌};
ghost use Rattle.bits.specs.Bit.{bit};
ghost use Rattle.sbox.specs.Sbox;

// The state that has a byte in column 0 and zeros in the others.
pub fn alone(b: u8) -> [u16; 8]
    ensures { result ≡ Sbox.alone b }
{
    let x = u16::from(b);
    [
        x % 2,
        x / 2 % 2,
        x / 4 % 2,
        x / 8 % 2,
        x / 16 % 2,
        x / 32 % 2,
        x / 64 % 2,
        x / 128 % 2,
    ]
}

// The bit of a row in column 0.
fn first_bit(x: u16) -> u8
    ensures { (result ≡ bit x 0)
        × (result < 2) }
{
    // `as`: try_from would have a refusal that can't come.
    (x % 2) as u8
}

// Column 0 of a state, row 0 lowest.
pub fn first(w: [u16; 8]) -> u8
    ensures { result ≡ Sbox.column w 0 }
{
    let high = ((first_bit(w[7]) * 2 + first_bit(w[6])) * 2 + first_bit(w[5])) * 2
        + first_bit(w[4]);
    (((high * 2 + first_bit(w[3])) * 2 + first_bit(w[2])) * 2 + first_bit(w[1])) * 2
        + first_bit(w[0])
}
