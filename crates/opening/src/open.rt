// Opening.
ghost use Rattle.std.specs.Prelude.{◌≡◌, ◌++◌, ◌-◌, ◌%◌, ◌^◌, ◌≤◌, min, length, take, drop};
ghost use Rattle.opening.specs.Open.{Tested, Compared, open_answer, open_buffer};
ghost use Rattle.sealing.specs.Passes.{text_of, text_part};

use block_numbers::TextBlock;
use suites::refusal::Refusal;
use suites::suite::Suite;
use text_blocks::setting::{Context, Setting};

// The text of the ciphertext c at the output's start, where `work` has its first bytes.
fn hand_out(u: &Setting<'_>, c: &[u8], work: &[u8], out: &mut [u8])
    requires { (length c.now ≤ 2 ^ 24)
        × (length c.now ≤ length out.old)
        × (length work.now % 16 ≡ 0)
        × (take (min (length c.now) (length work.now)) work.now
        ≡ text_part u.now.suite u.now.key u.now.nonce.now c.now 0 (min (length c.now) (length work.now))) }
    ensures { out.new
        ≡ text_of u.now.suite u.now.key u.now.nonce.now c.now ++ drop (length c.now) out.old }
{
    let m = c.len();
    let n = m.min(work.len());
    blockwise::copy(&work[..n], out);
    if n < m {
        let next = TextBlock::start().after(n / 16);
        let pad = text_blocks::pad(u, m, text_blocks::last_bytes(m));
        passes::window(u, c, next, pad, &mut out[n..m]);
    }
}

// The text at the output's start if the tag agrees; nothing is written before it has been compared.
fn open_with(
    u: &Context<'_, '_>,
    sealed: &[u8],
    work: &mut [u8],
    out: &mut [u8],
) -> Result<(), Refusal>
    requires { Tested sealed.now out.old
        × (length work.old % 16 ≡ 0) }
    ensures { let S = u.now.setting in
        Compared S.suite S.key S.nonce.now u.now.header.now sealed.now out.old result out.new }
{
    let m = sealed.len() - 16;
    let tag = passes::tag_of(u, &sealed[..m], work);
    if !mode::tag::same(tag, blockwise::block_at(sealed, m)) {
        return Err(Refusal::TagDiffers);
    }
    hand_out(&u.setting, &sealed[..m], work, out);
    Ok(())
}

// The same, with room for the longest text of a unit, which is then deciphered once.
fn open_tested(u: &Context<'_, '_>, sealed: &[u8], out: &mut [u8]) -> Result<(), Refusal>
    requires { Tested sealed.now out.old }
    ensures { let S = u.now.setting in
        Compared S.suite S.key S.nonce.now u.now.header.now sealed.now out.old result out.new }
{
    let mut work = [0u8; 8208];
    open_with(u, sealed, &mut work, out)
}

// The text at the output's start: its length; every other byte stays as it was. Refusals: 1 to 8.
pub fn open(
    suite: Suite,
    key: &[u8],
    nonce: &[u8],
    header: &[u8],
    sealed: &[u8],
    out: &mut [u8],
) -> Result<usize, Refusal>
    ensures { (result ≡ open_answer suite.cipher suite.steps
        key.now nonce.now header.now sealed.now out.old)
        × (out.new ≡ open_buffer suite.cipher suite.steps
        key.now nonce.now header.now sealed.now out.old) }
{
    let s = sealed.len();
    limits::open_tests(suite, key.len(), nonce.len(), header.len(), s, out.len())?;
    let key = blockwise::block_at(key, 0);
    let setting = Setting { suite, key, nonce };
    let u = Context { setting, header };
    open_tested(&u, sealed, out)?;
    Ok(s - 16)
}
