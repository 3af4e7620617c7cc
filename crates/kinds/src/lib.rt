// The kinds of book, and what follows from a kind: no number of a kind stands anywhere else in the code.
#![tactic(auto)]

ghost use Rattle.std.specs.Prelude.{◌≡◌, ◌+◌, ◌/◌, ◌^◌, ◌<◌};
ghost use Rattle.kinds.specs.Kind.{kind_of, newest, kind_by, book_kind};
ghost use Rattle.kinds.specs.Lengths.{Small, header_bytes, header_length, close_header_length, codes_at, ciphertext_at};
ghost use Rattle.kinds.specs.Lengths.{frame_length, unit_length, close_length, unit_calls, close_calls};

// A kind has the name of the tag of its unit headers.
#[derive(Clone, Copy, Debug, PartialEq, Eq, Hash)]
pub enum Kind {
    Tag10,
    Tag14,
}

// The numbers in which kinds differ.
#[derive(Clone, Copy)]
struct Numbers {
    header_tag: u8,
    close_tag: u8,
    number_bytes: usize,
    code_bytes: usize,
    unit_limit: u64,
}

impl From<u8> for Kind {
    ghost from_gives = { λ b kind. kind ≡ kind_by b };

    // The kind that the byte behind a book's opening fields says. A byte that is no tag of any kind says none, and any will do.
    #[tactic(auto, unfolding(crate::specs::Kind::kind_by))]
    fn from(b: u8) -> Kind {
        match b {
            0x10 | 0x20 => Kind::Tag10,
            _ => Kind::Tag14,
        }
    }
}

impl Kind {
    // The kind that the writer makes.
    pub fn newest() -> Kind
        ensures { result ≡ newest }
    {
        Kind::Tag14
    }

    // The kind of a book.
    #[tactic(auto, unfolding(crate::specs::Kind::book_kind))]
    pub fn of_book(book: &[u8]) -> Kind
        ensures { result ≡ book_kind book.now }
    {
        Kind::from(book.get(16).copied().unwrap_or(0))
    }

    fn numbers(self) -> Numbers
        ensures { (result.header_tag ≡ (kind_of self).header_tag)
            × (result.close_tag ≡ (kind_of self).close_tag)
            × Small 4 (kind_of self).number_bytes result.number_bytes
            × Small 4 (kind_of self).code_bytes result.code_bytes
            × Small 16777215 (kind_of self).unit_limit result.unit_limit }
    {
        match self {
            Kind::Tag10 => Numbers {
                header_tag: 0x10,
                close_tag: 0x20,
                number_bytes: 2,
                code_bytes: 2,
                unit_limit: 65535,
            },
            Kind::Tag14 => Numbers {
                header_tag: 0x14,
                close_tag: 0x21,
                number_bytes: 4,
                code_bytes: 2,
                unit_limit: 16777215,
            },
        }
    }

    // The tag of a unit's header.
    pub fn header_tag(self) -> u8
        ensures { result ≡ (kind_of self).header_tag }
    {
        self.numbers().header_tag
    }

    // The tag of a close.
    pub fn close_tag(self) -> u8
        ensures { result ≡ (kind_of self).close_tag }
    {
        self.numbers().close_tag
    }

    // How many bytes a unit's number has, and the count in a close.
    pub fn number_bytes(self) -> usize
        ensures { Small 4 (kind_of self).number_bytes result }
    {
        self.numbers().number_bytes
    }

    // How many bytes a language code has.
    pub fn code_bytes(self) -> usize
        ensures { Small 4 (kind_of self).code_bytes result }
    {
        self.numbers().code_bytes
    }

    // How many units a book may have.
    pub fn unit_limit(self) -> u64
        ensures { Small 16777215 (kind_of self).unit_limit result }
    {
        self.numbers().unit_limit
    }

    // How many bytes the value of a unit's header has.
    pub fn header_bytes(self) -> usize
        ensures { Small 16 (header_bytes (kind_of self)) result }
    {
        self.number_bytes() + 2 * self.code_bytes()
    }

    // How many bytes a unit's header has, tag and length included.
    pub fn header_len(self) -> usize
        ensures { Small 19 (header_length (kind_of self)) result }
    {
        3 + self.header_bytes()
    }

    // How many bytes the first field of a close has: tag, length and the count.
    pub fn close_header_len(self) -> usize
        ensures { Small 7 (close_header_length (kind_of self)) result }
    {
        3 + self.number_bytes()
    }

    // Where the language codes stand in a unit: behind tag, length and number of its header.
    pub fn codes_at(self) -> usize
        ensures { Small 7 (codes_at (kind_of self)) result }
    {
        3 + self.number_bytes()
    }

    // Where the ciphertext stands in a unit.
    pub fn ciphertext_at(self) -> usize
        ensures { Small 22 (ciphertext_at (kind_of self)) result }
    {
        self.header_len() + 3
    }

    // How many bytes a unit has whose ciphertext has m; for our own crates, whose lengths are below the limit.
    pub fn unit_len(self, m: usize) -> usize
        requires { m < 2 ^ 32 }
        ensures { Small (41 + m) (frame_length (kind_of self) m) result }
    {
        self.header_len() + (3 + m) + (3 + 16)
    }

    // How many bytes a unit has with a source of s bytes and a target of t; likewise.
    pub fn unit_room(self, s: usize, t: usize) -> usize
        requires { s + t < 2 ^ 31 }
        ensures { Small (43 + (s + t)) (unit_length (kind_of self) s t) result }
    {
        self.unit_len(2 + (s + t))
    }

    // How many bytes a close has.
    pub fn close_len(self) -> usize
        ensures { Small 26 (close_length (kind_of self)) result }
    {
        self.close_header_len() + (3 + 16)
    }

    // How many cipher calls a unit takes whose ciphertext has m bytes; for our own crates too.
    pub fn unit_calls(self, m: usize) -> u64
        requires { m < 2 ^ 32 }
        ensures { Small (4 + (m + 15) / 16) (unit_calls (kind_of self) m) result }
    {
        ((16 + self.header_len() + 15) / 16 + (m + 15) / 16 + 1) as u64
    }

    // How many cipher calls a close takes.
    pub fn close_calls(self) -> u64
        ensures { Small 3 (close_calls (kind_of self)) result }
    {
        ((16 + self.close_header_len() + 15) / 16 + 1) as u64
    }
}
