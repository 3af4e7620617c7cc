// The numbers of blocks: of a text and of a header, "two separate counts from 0". Each is a type of its own, of 32 bits, and only here is
// one made: a count begins at `start` and goes on by `after`, so that the number of the one is not taken for that of the other by mistake.
// The scope's form: two tuple structs around a number.
#![tactic(auto)]

ghost use Rattle.std.specs.Prelude.{◌≡◌, ◌+◌, ◌*◌, ◌^◌, ◌<◌};

// The number of a text block.
#[derive(Clone, Copy)]
pub struct TextBlock(u32);

impl TextBlock {
    // The first.
    pub fn start() -> TextBlock
        ensures { result.0 ≡ 0 }
    {
        TextBlock(0)
    }

    // The one k blocks further on. It serves our own crates, whose texts are within the limit.
    pub fn after(self, k: usize) -> TextBlock
        requires { self.0 + k < 2 ^ 32 }
        ensures { result.0 ≡ self.0 + k }
    {
        TextBlock(self.0 + (k as u32))
    }

    // Where it begins in the text. It serves our own crates, likewise.
    pub fn place(self) -> usize
        requires { 16 * self.0 < 2 ^ 32 }
        ensures { result ≡ 16 * self.0 }
    {
        (16 * self.0) as usize
    }

    // As the tweak maker writes it.
    pub fn number(self) -> u32
        ensures { result ≡ self.0 }
    {
        self.0
    }
}

// The number of a header block.
#[derive(Clone, Copy)]
pub struct HeaderBlock(u32);

impl HeaderBlock {
    // The first.
    pub fn start() -> HeaderBlock
        ensures { result.0 ≡ 0 }
    {
        HeaderBlock(0)
    }

    // The one k blocks further on. It serves our own crates, whose headers are within the limit.
    pub fn after(self, k: usize) -> HeaderBlock
        requires { self.0 + k < 2 ^ 32 }
        ensures { result.0 ≡ self.0 + k }
    {
        HeaderBlock(self.0 + (k as u32))
    }

    // As the tweak maker writes it.
    pub fn number(self) -> u32
        ensures { result ≡ self.0 }
    {
        self.0
    }
}
