// Trigrams, read from a segment.
#![tactic(auto)]

ghost use Rattle.std.specs.Prelude.{◌≡◌, ◌+◌, ◌-◌, ◌<◌, length};
ghost use Rattle.trigrams.specs.Trigrams.{trigram};
ghost use Rattle.trigrams.specs.Read.{Read};

// How many trigrams a segment of n bytes has.
pub fn number_in(n: usize) -> usize
    ensures { result ≡ n - 2 }
{
    n.saturating_sub(2)
}

// The trigram from a place on. It serves our own crates, which stay before the last two places.
#[tactic(auto, unfolding(crate::specs::Trigrams::trigram))]
pub fn at(s: &[u8], i: usize) -> usize
    requires { i + 2 < length s.now }
    ensures { Read s.now i result }
{
    usize::from(s[i]) + 256 * usize::from(s[i + 1]) + 65536 * usize::from(s[i + 2])
}
