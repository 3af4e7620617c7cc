// Languages and lengths of a unit.
ghost use Rattle.std.specs.Prelude.{◌≡◌};
ghost use Rattle.fields.specs.Languages.{letter, letters, pair_allowed};
ghost use Rattle.fields.specs.Unit.{in_range};

fn is_letter(b: u8) -> bool
    ensures { result ≡ letter b }
{
    b.is_ascii_lowercase()
}

// Whether a language code is of letters.
pub fn is_code(code: [u8; 2]) -> bool
    ensures { result ≡ letters code }
{
    is_letter(code[0]) & is_letter(code[1])
}

// Whether a unit may have these languages.
pub fn is_pair(from: [u8; 2], to: [u8; 2]) -> bool
    ensures { result ≡ pair_allowed from to }
{
    is_code(from) & is_code(to)
}

// Whether source and target may have s and t bytes: no branch, since the lengths are of a text.
pub fn in_range(s: usize, t: usize) -> bool
    ensures { result ≡ in_range s t }
{
    (1 <= s) & (s <= 4096) & (t <= 4096)
}
