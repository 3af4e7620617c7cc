// What all blocks of a sealing or an opening have in common.
ghost use Rattle.std.specs.Prelude.{true, ◌≡◌, ◌^◌, ◌≤◌, length};
ghost use Rattle.suites.specs.Suite.{listed};

use suites::suite::Suite;

// A suite that is listed, a key, and a nonce of at most 15 bytes.
#[derive(Clone, Copy)]
pub struct Setting<'a> {
    pub suite: Suite,
    pub key: [u8; 16],
    pub nonce: &'a [u8],
    ghost suite_listed: { listed suite.cipher suite.steps ≡ true },
    ghost nonce_short: { length nonce.now ≤ 15 },
}

// What a text is sealed or opened under: a setting, and a header of at most 2^24 bytes.
#[derive(Clone, Copy)]
pub struct Context<'a, 'b> {
    pub setting: Setting<'a>,
    pub header: &'b [u8],
    ghost header_short: { length header.now ≤ 2 ^ 24 },
}
