// Opening into a working buffer.
ghost use Rattle.std.specs.Prelude.{◌≡◌, ◌++◌, ◌%◌, ◌^◌, ◌≤◌, length, Ok};
ghost use Rattle.opening.specs.Open.{opened, by_tag};
ghost use Rattle.verifying.specs.Verify.{verify_outcome};
ghost use Rattle.verifying.specs.Within.{held_in, within_buffer};

use suites::refusal::Refusal;
use suites::suite::Suite;
use text_blocks::setting::{Context, Setting};

// Whether the tag agrees, and in either case the text in `work`, as far as it goes.
fn within_tested(
    u: &Context<'_, '_>,
    c: &[u8],
    tag: [u8; 16],
    work: &mut [u8],
) -> Result<(), Refusal>
    requires { (length c.now ≤ 2 ^ 24)
        × (length work.old % 16 ≡ 0) }
    ensures { let S = u.now.setting in
        (result ≡ by_tag S.suite S.key S.nonce.now u.now.header.now (c.now ++ tag))
        × (work.new
        ≡ held_in (Ok tt) (opened S.suite.cipher S.suite.steps S.key S.nonce.now u.now.header.now (c.now ++ tag)) work.old) }
{
    let made = passes::tag_of(u, c, work);
    if !mode::tag::same(made, tag) {
        return Err(Refusal::TagDiffers);
    }
    Ok(())
}

// Opens into a working buffer, for a caller that hands out nothing of it unless the answer is Ok: the text stands there also where its tag
// differs. It serves our own crates, whose buffer has whole blocks. Refusals: 1 to 6, 8.
pub fn open_within(
    suite: Suite,
    key: &[u8],
    nonce: &[u8],
    header: &[u8],
    c: &[u8],
    tag: [u8; 16],
    work: &mut [u8],
) -> Result<(), Refusal>
    requires { length work.old % 16 ≡ 0 }
    ensures { (result ≡ verify_outcome suite.cipher suite.steps
        key.now nonce.now header.now (c.now ++ tag))
        × (work.new ≡ within_buffer suite.cipher suite.steps
        key.now nonce.now header.now (c.now ++ tag) work.old) }
{
    limits::apart_tests(suite, key.len(), nonce.len(), header.len(), c.len())?;
    let key = blockwise::block_at(key, 0);
    let setting = Setting { suite, key, nonce };
    let u = Context { setting, header };
    within_tested(&u, c, tag, work)
}
