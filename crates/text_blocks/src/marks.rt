// The marks of special tweaks: of the last text block, the last header block and the tag.
ghost use Rattle.std.specs.Prelude.{cond, ◌≡◌};
ghost use Rattle.calls.specs.Tweak.{full, last_text_mark, last_header_mark, tag_mark};

// Whether the last block of n bytes is full.
fn is_full(n: usize) -> bool
    ensures { result ≡ full n }
{
    (0 < n) & (n % 16 == 0)
}

// The one mark of n bytes whose last block is full, the other of n bytes whose last is not.
fn mark(n: usize, whole: u8, partial: u8) -> u8
    ensures { result ≡ cond (full n) whole partial }
{
    if is_full(n) {
        return whole;
    }
    partial
}

// One function for each of the three, so that no caller spells a mark: by an enum, the same three pairs would stand in a match.

// The mark of the last block of a text of m bytes.
pub fn last_text_mark(m: usize) -> u8
    ensures { result ≡ last_text_mark m }
{
    mark(m, 0xC0, 0xC8)
}

// The mark of the last block of a header of a bytes.
pub fn last_header_mark(a: usize) -> u8
    ensures { result ≡ last_header_mark a }
{
    mark(a, 0xD0, 0xD8)
}

// The mark of the tag of a text of m bytes.
pub fn tag_mark(m: usize) -> u8
    ensures { result ≡ tag_mark m }
{
    mark(m, 0xE0, 0xE8)
}
