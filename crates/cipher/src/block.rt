// One block: enciphered, deciphered, and a step of each. The L-box is looked up in tables, at places that depend on the block and the key.
ghost use Rattle.std.specs.Prelude.{◌≡◌, cond};
ghost use Rattle.cipher.specs.Entry.{enciphered, deciphered};
ghost use Rattle.rounds.specs.Cipher.{stepped, unstepped};
ghost use Rattle.suites.specs.Suite.{suite_answer};

use rounds::Cipher;
use suites::refusal::Refusal;
use suites::suite::Suite;

// The block enciphered or deciphered in its place, or refusal 1 and the block as it was.
fn look_up(
    ahead: bool,
    suite: Suite,
    key: [u8; 16],
    tweak: [u8; 16],
    block: &mut [u8; 16],
) -> Result<(), Refusal>
    ensures { (result ≡ suite_answer suite.cipher suite.steps)
        × (block.new ≡ cond ahead (enciphered suite.cipher suite.steps key tweak block.old)
        (deciphered suite.cipher suite.steps key tweak block.old)) }
{
    if !suite.is_listed() {
        return Err(Refusal::SuiteNotListed);
    }
    let n = usize::from(suite.steps);
    runs::run(ahead, suite.cipher_of(), 0, n, true, key, &tweak, block);
    Ok(())
}

// The two ways have a name each in the functions below, which are what callers and the functions for C cite.

// The block enciphered in its place, or refusal 1 and the block as it was.
pub fn encipher(
    suite: Suite,
    key: [u8; 16],
    tweak: [u8; 16],
    block: &mut [u8; 16],
) -> Result<(), Refusal>
    ensures { (result ≡ suite_answer suite.cipher suite.steps)
        × (block.new ≡ enciphered suite.cipher suite.steps key tweak block.old) }
{
    look_up(true, suite, key, tweak, block)
}

// The block deciphered in its place, or refusal 1 and the block as it was.
pub fn decipher(
    suite: Suite,
    key: [u8; 16],
    tweak: [u8; 16],
    block: &mut [u8; 16],
) -> Result<(), Refusal>
    ensures { (result ≡ suite_answer suite.cipher suite.steps)
        × (block.new ≡ deciphered suite.cipher suite.steps key tweak block.old) }
{
    look_up(false, suite, key, tweak, block)
}

// Step done + 1 of a block that has had TK(0) and `done` steps: two rounds and the tweakey. The block stays as it was where
// `done` is 14 or more, since no suite has that step.
pub fn step(
    cipher: Cipher,
    done: usize,
    key: [u8; 16],
    tweak: [u8; 16],
    block: [u8; 16],
) -> [u8; 16]
    ensures { result ≡ stepped cipher done key tweak block }
{
    let mut b = block;
    runs::run(true, cipher, done, 1, false, key, &tweak, &mut b);
    b
}

// Step done + 1 undone: the tweakey and two rounds. The block stays as it was where `done` is 14 or more.
pub fn step_back(
    cipher: Cipher,
    done: usize,
    key: [u8; 16],
    tweak: [u8; 16],
    block: [u8; 16],
) -> [u8; 16]
    ensures { result ≡ unstepped cipher done key tweak block }
{
    let mut b = block;
    runs::run(false, cipher, done, 1, false, key, &tweak, &mut b);
    b
}
