// The limits of header and text, and the refusals that need only lengths.
#![tactic(auto)]

ghost use Rattle.std.specs.Prelude.{◌≡◌, ◌+◌, ◌-◌, ◌*◌, ◌^◌, ◌≤◌, min, Ok};
ghost use Rattle.limits.specs.Limits.{header_limit, text_limit};
ghost use Rattle.limits.specs.Tests.{input_tests, seal_tests, open_tests, verify_tests};

use suites::refusal::Refusal;
use suites::suite::Suite;

// 2^(bits - 8n), at most 2^24.
#[tactic(auto, using(crate::proofs::Bounds::long_nonce))]
fn limit(bits: usize, n: usize) -> usize
    requires { (128 ≤ bits)
        × (bits ≤ 136) }
    ensures { result ≡ min (2 ^ (bits - 8 * n)) (2 ^ 24) }
{
    if n < 14 {
        return 1 << 24;
    }
    if 16 < n {
        return 1;
    }
    1 << (bits - 8 * n)
}

// The most bytes that a header may have under a nonce of n bytes.
#[tactic(auto, unfolding(crate::specs::Limits::header_limit))]
pub fn header_limit(n: usize) -> usize
    ensures { result ≡ header_limit n }
{
    limit(130, n)
}

// The most bytes that a text may have under a nonce of n bytes.
#[tactic(auto, unfolding(crate::specs::Limits::text_limit))]
pub fn text_limit(n: usize) -> usize
    ensures { result ≡ text_limit n }
{
    limit(131, n)
}

// Refusals 1 to 4. The suite and the three lengths go together through this function and the next three, but no further: a struct of them would be
// built for one call, of what the entry points are lent, and taken apart in it.
#[tactic(auto, unfolding(crate::specs::Tests::input_tests))]
fn input_tests(suite: Suite, k: usize, n: usize, a: usize) -> Result<(), Refusal>
    ensures { result ≡ input_tests suite.cipher suite.steps k n a (Ok tt) }
{
    if !suite.is_listed() {
        return Err(Refusal::SuiteNotListed);
    }
    if k != 16 {
        return Err(Refusal::KeyLength);
    }
    if n < 1 || 15 < n {
        return Err(Refusal::NonceLength);
    }
    if header_limit(n) < a {
        return Err(Refusal::HeaderTooLong);
    }
    Ok(())
}

// The tests of sealing, of a key of k bytes, a nonce of n, a header of a, a text of m and an output of o.
#[tactic(auto, using(crate::proofs::Order::inputs_first, crate::proofs::Passed::text_limit_most), unfolding(crate::specs::Tests::seal_tests))]
pub fn seal_tests(
    suite: Suite,
    k: usize,
    n: usize,
    a: usize,
    m: usize,
    o: usize,
) -> Result<(), Refusal>
    ensures { result ≡ seal_tests suite.cipher suite.steps k n a m o }
{
    input_tests(suite, k, n, a)?;
    let most = text_limit(n);
    if most < m {
        return Err(Refusal::TextTooLong);
    }
    if o < m + 16 {
        return Err(Refusal::OutputTooShort);
    }
    Ok(())
}

// The tests of opening, of s sealed bytes and an output of o.
#[tactic(auto, using(crate::proofs::Order::inputs_first), unfolding(crate::specs::Tests::open_tests, crate::specs::Tests::sealed_tests))]
pub fn open_tests(
    suite: Suite,
    k: usize,
    n: usize,
    a: usize,
    s: usize,
    o: usize,
) -> Result<(), Refusal>
    ensures { result ≡ open_tests suite.cipher suite.steps k n a s o }
{
    input_tests(suite, k, n, a)?;
    if s < 16 {
        return Err(Refusal::SealedTooShort);
    }
    let m = s - 16;
    if text_limit(n) < m {
        return Err(Refusal::TextTooLong);
    }
    if o < m {
        return Err(Refusal::OutputTooShort);
    }
    Ok(())
}

// The tests of opening without an output, of a text of m bytes with the tag apart.
#[tactic(auto, using(crate::proofs::Order::inputs_first), unfolding(crate::specs::Tests::verify_tests, crate::specs::Tests::sealed_tests))]
pub fn apart_tests(suite: Suite, k: usize, n: usize, a: usize, m: usize) -> Result<(), Refusal>
    ensures { result ≡ verify_tests suite.cipher suite.steps k n a (m + 16) }
{
    input_tests(suite, k, n, a)?;
    if text_limit(n) < m {
        return Err(Refusal::TextTooLong);
    }
    Ok(())
}
