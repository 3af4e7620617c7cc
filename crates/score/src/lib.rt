// The score of two segments.
#![tactic(auto)]

ghost use Rattle.std.specs.Prelude.{◌≡◌, ◌+◌, ◌-◌, ◌*◌, ◌/◌, ◌≤◌, ◌<◌, length};
ghost use Rattle.trigrams.specs.Trigrams.{trigrams, shared};
ghost use Rattle.score.specs.Score.{score};

use tally::Tally;

// The trigrams that two segments share, where the first has at most N bytes: its are counted. It stays a function of its own, so that a call
// for short segments does not touch the room of the others.
#[inline(never)]
fn shared_within<const N: usize>(a: &[u8], b: &[u8]) -> usize
    requires some { 0 < N }
    requires few { N ≤ 4096 }
    requires within { length a.now ≤ N }
    ensures { result ≡ shared (trigrams a.now) (trigrams b.now) }
{
    let mut tally: Tally<N> = Tally::new();
    tally.fill(a);
    tally.take_all(b)
}

// The same, where the first has any length.
fn shared_first(a: &[u8], b: &[u8]) -> usize
    ensures { result ≡ shared (trigrams a.now) (trigrams b.now) }
{
    match a.len() {
        ..=256 => shared_within::<256>(a, b),
        ..=4096 => shared_within::<4096>(a, b),
        _ => ranges::shared(a, b),
    }
}

// The same of any two: the shorter one's are counted.
#[tactic(auto, using(trigrams::proofs::Common::shared_sym))]
fn shared_either(a: &[u8], b: &[u8]) -> usize
    ensures { result ≡ shared (trigrams a.now) (trigrams b.now) }
{
    if a.len() <= b.len() {
        shared_first(a, b)
    } else {
        shared_first(b, a)
    }
}

// 1,000 × a divided by n, rounded down, of numbers however large.
fn long_quotient(a: usize, n: usize) -> u32
    requires { (0 < n)
        × (a ≤ n) }
    ensures { result ≡ 1000 * a / n }
{
    let mut q: u32 = 0;
    let mut rest: usize = 0;
    for _ in 0..1000u32 {
        if rest < n - a {
            rest += a;
        } else {
            rest -= n - a;
            q += 1;
        }
    }
    q
}

// 2,000 × c divided by n, rounded down.
fn quotient(c: usize, n: usize) -> u32
    requires { (0 < n)
        × (2 * c ≤ n) }
    ensures { result ≡ 2000 * c / n }
{
    if c <= 9000000000000000 {
        return (2000 * c / n) as u32;
    }
    long_quotient(2 * c, n)
}

// The score by the number of trigrams that are shared, for our own crates, which have found that.
pub fn score_by(c: usize, a: &[u8], b: &[u8]) -> u32
    requires { c ≡ shared (trigrams a.now) (trigrams b.now) }
    ensures { (result ≡ score a.now b.now)
        × (result ≤ 1000) }
{
    let n = trigrams::number_in(a.len()) + trigrams::number_in(b.len());
    if n == 0 {
        if a == b {
            return 1000;
        }
        return 0;
    }
    quotient(c, n)
}

// The score of two segments, of any length: 0 to 1,000. Where one of the two has at most 4,096 bytes, and the text is ordinary, it takes time as
// their lengths together.
pub fn score(source: &[u8], typed: &[u8]) -> u32
    ensures { (result ≡ score source.now typed.now)
        × (result ≤ 1000) }
{
    score_by(shared_either(source, typed), source, typed)
}
