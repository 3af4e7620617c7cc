// The functions for C on blocks, as include/sealed_book.h declares them: one for each way, since C has a name for each, and each with C's
// parameters, so that cipher, steps and key stand in all four.
#![tactic(auto)]

ghost use Rattle.std.specs.Prelude.{◌≡◌};
ghost use Rattle.cipher.specs.Entry.{enciphered, deciphered, enciphered_blocks, deciphered_blocks};
ghost use Rattle.suites.specs.Suite.{suite_answer};
ghost use Rattle.returned.specs.Returned.{returned};

use returned::code;
use suites::suite::Suite;

#[unsafe(no_mangle)]
pub extern "C" fn sb_encipher(
    cipher: u8,
    steps: u8,
    key: &[u8; 16],
    tweak: &[u8; 16],
    block: &mut [u8; 16],
) -> u32
    ensures { (result ≡ returned (suite_answer cipher steps))
        × (block.new ≡ enciphered cipher steps key.now tweak.now block.old) }
{
    code(cipher::block::encipher(Suite { cipher, steps }, *key, *tweak, block))
}

#[unsafe(no_mangle)]
pub extern "C" fn sb_decipher(
    cipher: u8,
    steps: u8,
    key: &[u8; 16],
    tweak: &[u8; 16],
    block: &mut [u8; 16],
) -> u32
    ensures { (result ≡ returned (suite_answer cipher steps))
        × (block.new ≡ deciphered cipher steps key.now tweak.now block.old) }
{
    code(cipher::block::decipher(Suite { cipher, steps }, *key, *tweak, block))
}

#[unsafe(no_mangle)]
pub extern "C" fn sb_encipher_blocks(
    cipher: u8,
    steps: u8,
    key: &[u8; 16],
    tweaks: &[u8],
    blocks: &mut [u8],
) -> u32
    ensures { (result ≡ returned (suite_answer cipher steps))
        × (blocks.new ≡ enciphered_blocks cipher steps key.now tweaks.now blocks.old) }
{
    code(cipher::blocks::encipher_blocks(Suite { cipher, steps }, *key, tweaks, blocks))
}

#[unsafe(no_mangle)]
pub extern "C" fn sb_decipher_blocks(
    cipher: u8,
    steps: u8,
    key: &[u8; 16],
    tweaks: &[u8],
    blocks: &mut [u8],
) -> u32
    ensures { (result ≡ returned (suite_answer cipher steps))
        × (blocks.new ≡ deciphered_blocks cipher steps key.now tweaks.now blocks.old) }
{
    code(cipher::blocks::decipher_blocks(Suite { cipher, steps }, *key, tweaks, blocks))
}
