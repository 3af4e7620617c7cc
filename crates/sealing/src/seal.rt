// Sealing.
ghost use Rattle.std.specs.Prelude.{◌≡◌, ◌++◌, ◌+◌, ◌-◌, ◌%◌, ◌^◌, ◌≤◌, length, take, drop};
ghost use Rattle.calls.specs.Tweak.{blocks_of};
ghost use Rattle.sealing.specs.Seal.{sealed, seal_answer, seal_buffer, in_place_answer, in_place_buffer};

use block_numbers::TextBlock;
use suites::refusal::Refusal;
use suites::suite::Suite;
use text_blocks::setting::{Context, Setting};

// The length of the sealed bytes, and the number of cipher calls.
#[derive(Clone, Copy, Debug, PartialEq, Eq)]
pub struct Sealed {
    pub len: usize,
    pub calls: usize,
}

// How many of m bytes stand before the last 1 to 1024: whole groups of 64 blocks; none where m is 0.
fn front(m: usize) -> usize
    ensures { (result % 1024 ≡ 0)
        × (result ≤ m - 1)
        × (m ≤ result + 1024) }
{
    if m == 0 {
        return 0;
    }
    1024 * ((m - 1) / 1024)
}

// The sealed bytes of the first m bytes of the output, in their place.
fn seal_there(u: &Context<'_, '_>, m: usize, out: &mut [u8]) -> Sealed
    requires { (m ≤ 2 ^ 24)
        × (m + 16 ≤ length out.old) }
    ensures { let S = u.now.setting in
        (result.len ≡ m + 16)
        × (result.calls ≡ blocks_of (length u.now.header.now) + blocks_of m + 1)
        × (out.new
        ≡ sealed S.suite.cipher S.suite.steps S.key S.nonce.now u.now.header.now (take m out.old) ++ drop (m + 16) out.old) }
{
    let checksum = sums::add_all([0u8; 16], &out[..m]);
    let start = TextBlock::start();
    let n = front(m);
    text_blocks::blocks(true, &u.setting, start, &mut out[..n]);
    let tag = batch::sealing::rest(u, checksum, start.after(n / 16), &mut out[n..m]);
    blockwise::put_at(out, m, tag);
    Sealed {
        len: m + 16,
        calls: text_blocks::blocks_of(u.header.len()) + text_blocks::blocks_of(m) + 1,
    }
}

// The sealed bytes at the output's start.
fn write_sealed(u: &Context<'_, '_>, text: &[u8], out: &mut [u8]) -> Sealed
    requires { (length text.now ≤ 2 ^ 24)
        × (length text.now + 16 ≤ length out.old) }
    ensures { let S = u.now.setting in
        (result.len ≡ length text.now + 16)
        × (result.calls ≡ blocks_of (length u.now.header.now) + blocks_of (length text.now) + 1)
        × (out.new
        ≡ sealed S.suite.cipher S.suite.steps S.key S.nonce.now u.now.header.now text.now ++ drop (length text.now + 16) out.old) }
{
    blockwise::copy(text, out);
    seal_there(u, text.len(), out)
}

// Ciphertext and tag of the text at the output's start; every other byte stays as it was. Refusals: 1, 2, 3, 4, 6, 7.
pub fn seal(
    suite: Suite,
    key: &[u8],
    nonce: &[u8],
    header: &[u8],
    text: &[u8],
    out: &mut [u8],
) -> Result<Sealed, Refusal>
    ensures { (result ≡ seal_answer suite.cipher suite.steps
        key.now nonce.now header.now text.now out.old)
        × (out.new ≡ seal_buffer suite.cipher suite.steps
        key.now nonce.now header.now text.now out.old) }
{
    limits::seal_tests(
        suite,
        key.len(),
        nonce.len(),
        header.len(),
        text.len(),
        out.len(),
    )?;
    let key = blockwise::block_at(key, 0);
    let setting = Setting { suite, key, nonce };
    let u = Context { setting, header };
    Ok(write_sealed(&u, text, out))
}

// The same of a text that stands at the output's start already, its first m bytes.
pub fn seal_in_place(
    suite: Suite,
    key: &[u8],
    nonce: &[u8],
    header: &[u8],
    m: usize,
    out: &mut [u8],
) -> Result<Sealed, Refusal>
    ensures { (result ≡ in_place_answer suite.cipher suite.steps
        key.now nonce.now header.now m out.old)
        × (out.new ≡ in_place_buffer suite.cipher suite.steps
        key.now nonce.now header.now m out.old) }
{
    limits::seal_tests(suite, key.len(), nonce.len(), header.len(), m, out.len())?;
    let key = blockwise::block_at(key, 0);
    let setting = Setting { suite, key, nonce };
    let u = Context { setting, header };
    Ok(seal_there(&u, m, out))
}
