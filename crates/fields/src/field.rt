// Fields.
ghost use Rattle.std.specs.Prelude.{◌≡◌, ◌+◌, ◌*◌};
ghost use Rattle.fields.specs.Field.{field_head, has_field};

// What stands before a value of n bytes: the tag and the length.
pub fn head(tag: u8, n: usize) -> [u8; 3]
    ensures { result ≡ field_head tag n }
{
    let b = n.to_be_bytes();
    [tag, b[6], b[7]]
}

// Two bytes as a number, the higher first.
pub fn pair(high: u8, low: u8) -> usize
    ensures { result ≡ high * 256 + low }
{
    usize::from(u16::from_be_bytes([high, low]))
}

// Whether a field with this tag and a value of n bytes stands at the start of s.
pub fn has(tag: u8, n: usize, s: &[u8]) -> bool
    ensures { result ≡ has_field tag n s.now }
{
    let room = s.len();
    if room < 3 {
        return false;
    }
    if room - 3 < n {
        return false;
    }
    (s[0] == tag) & (pair(s[1], s[2]) == n)
}
