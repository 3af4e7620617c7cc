// The fifteen tables as the paper prints them, and what each is made of: specs/Printed, specs/Rule. Here are the halves of a word.
#![tactic(auto)]

ghost use Rattle.std.specs.Prelude.{◌≡◌};
ghost use Rattle.printed.specs.Rule;

// A half of a word of 16 bits.
#[derive(Clone, Copy, Debug, PartialEq, Eq, Hash)]
pub enum Half {
    Low,
    High,
}

// The word that has a byte in one half and zeros in the other.
pub fn in_half(h: Half, b: u8) -> u16
    ensures { result ≡ Rule.in_half h b }
{
    match h {
        Half::Low => u16::from(b),
        Half::High => u16::from(b) * 256,
    }
}

// A half of a word.
pub fn half_of(h: Half, x: u16) -> u8
    ensures { result ≡ Rule.half_of h x }
{
    let [high, low] = x.to_be_bytes();
    match h {
        Half::Low => low,
        Half::High => high,
    }
}
