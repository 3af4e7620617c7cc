// Suites: a cipher and a step count.
ghost use Rattle.std.specs.Prelude.{◌≡◌};
ghost use Rattle.suites.specs.Suite.{listed, cipher_of, made};

use crate::refusal::Refusal;
use rounds::Cipher;

// Any two bytes; `make` makes listed ones only. They stay bytes, and no enum: a book or a caller may bring any two, and refusal 1 answers them.
#[derive(Clone, Copy, Debug, PartialEq, Eq)]
pub struct Suite {
    pub cipher: u8,
    pub steps: u8,
}

impl Suite {
    pub const SCREAM: u8 = 1;

    pub const ISCREAM: u8 = 2;

    pub const SCREAM_STEPS: [u8; 4] = [6, 8, 10, 12];

    pub const ISCREAM_STEPS: [u8; 4] = [8, 10, 12, 14];

    // The suite of these two bytes, if it is listed.
    pub fn make(cipher: u8, steps: u8) -> Result<Suite, Refusal>
        ensures { result ≡ made cipher steps }
    {
        let s = Suite { cipher, steps };
        if s.is_listed() {
            Ok(s)
        } else {
            Err(Refusal::SuiteNotListed)
        }
    }

    // Whether the suite is one of the eight that there are.
    pub fn is_listed(self) -> bool
        ensures { result ≡ listed self.cipher self.steps }
    {
        match self.cipher {
            Suite::SCREAM => Suite::SCREAM_STEPS.contains(&self.steps),
            Suite::ISCREAM => Suite::ISCREAM_STEPS.contains(&self.steps),
            _ => false,
        }
    }

    // The cipher of a listed suite; asked only where the suite is listed.
    pub fn cipher_of(self) -> Cipher
        ensures { result ≡ cipher_of self.cipher }
    {
        match self.cipher {
            Suite::SCREAM => Cipher::Scream,
            _ => Cipher::IScream,
        }
    }
}
