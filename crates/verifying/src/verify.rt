// Opening without an output, with ciphertext and tag apart.
ghost use Rattle.std.specs.Prelude.{◌≡◌, ◌++◌, ◌^◌, ◌≤◌, length};
ghost use Rattle.opening.specs.Open.{opened, by_tag};
ghost use Rattle.verifying.specs.Verify.{verify_answer, verify_report};

use suites::refusal::Refusal;
use suites::suite::Suite;
use text_blocks::setting::{Context, Setting};

// The first two bytes of the text if the tag agrees, 0 for one that is not there.
fn verify_tested(u: &Context<'_, '_>, c: &[u8], tag: [u8; 16]) -> Result<[u8; 2], Refusal>
    requires { length c.now ≤ 2 ^ 24 }
    ensures { let S = u.now.setting in
        result
        ≡ verify_report (by_tag S.suite S.key S.nonce.now u.now.header.now (c.now ++ tag))
        (opened S.suite.cipher S.suite.steps S.key S.nonce.now u.now.header.now (c.now ++ tag)) }
{
    let mut work = [0u8; 1024];
    let made = passes::tag_of(u, c, &mut work);
    if !mode::tag::same(made, tag) {
        return Err(Refusal::TagDiffers);
    }
    Ok([work[0], work[1]])
}

// Opens without an output: whether the tag agrees, and then the first two bytes of the text, 0 for one that is not there. Refusals: 1 to 6, 8.
pub fn verify_apart(
    suite: Suite,
    key: &[u8],
    nonce: &[u8],
    header: &[u8],
    c: &[u8],
    tag: [u8; 16],
) -> Result<[u8; 2], Refusal>
    ensures { result ≡ verify_answer suite.cipher suite.steps key.now nonce.now header.now (c.now ++ tag) }
{
    limits::apart_tests(suite, key.len(), nonce.len(), header.len(), c.len())?;
    let key = blockwise::block_at(key, 0);
    let setting = Setting { suite, key, nonce };
    let u = Context { setting, header };
    verify_tested(&u, c, tag)
}
