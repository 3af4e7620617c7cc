// Many blocks at once, each in place under its own tweak.
ghost use Rattle.std.specs.Prelude.{true, cond, ◌≡◌};
ghost use Rattle.blockwise.specs.Blocks.{each_block};
ghost use Rattle.cipher.specs.Entry.{enciphered_blocks, deciphered_blocks};
ghost use Rattle.rounds.specs.Cipher.{encipher, decipher};
ghost use Rattle.suites.specs.Suite.{listed, cipher_of, suite_answer};

use suites::refusal::Refusal;
use suites::suite::Suite;

// Every whole block that both slices have, enciphered or deciphered in place under its own tweak; all other bytes stay. It serves our own
// crates, which know that the suite is listed.
pub fn cipher_blocks(ahead: bool, suite: Suite, key: [u8; 16], tweaks: &[u8], blocks: &mut [u8])
    requires { listed suite.cipher suite.steps ≡ true }
    ensures { blocks.new
        ≡ each_block (cond ahead (encipher (cipher_of suite.cipher) suite.steps key)
        (decipher (cipher_of suite.cipher) suite.steps key)) tweaks.now blocks.old }
{
    let n = usize::from(suite.steps);
    crate::many::all(ahead, suite.cipher_of(), n, key, tweaks, blocks);
}

// Enciphers every whole block that both slices have, each in place under its own tweak. All other bytes stay, and a suite
// that is not listed changes nothing.
#[tactic(auto, unfolding(crate::specs::Entry::enciphered_blocks))]
pub fn encipher_blocks(
    suite: Suite,
    key: [u8; 16],
    tweaks: &[u8],
    blocks: &mut [u8],
) -> Result<(), Refusal>
    ensures { (result ≡ suite_answer suite.cipher suite.steps)
        × (blocks.new ≡ enciphered_blocks suite.cipher suite.steps key tweaks.now blocks.old) }
{
    if !suite.is_listed() {
        return Err(Refusal::SuiteNotListed);
    }
    cipher_blocks(true, suite, key, tweaks, blocks);
    Ok(())
}

// Deciphers every whole block that both slices have, each in place under its own tweak. All other bytes stay, and a suite
// that is not listed changes nothing.
#[tactic(auto, unfolding(crate::specs::Entry::deciphered_blocks))]
pub fn decipher_blocks(
    suite: Suite,
    key: [u8; 16],
    tweaks: &[u8],
    blocks: &mut [u8],
) -> Result<(), Refusal>
    ensures { (result ≡ suite_answer suite.cipher suite.steps)
        × (blocks.new ≡ deciphered_blocks suite.cipher suite.steps key tweaks.now blocks.old) }
{
    if !suite.is_listed() {
        return Err(Refusal::SuiteNotListed);
    }
    cipher_blocks(false, suite, key, tweaks, blocks);
    Ok(())
}
