// Passes over a ciphertext. Each public function serves our own crates, which have tested what it asks.
#![tactic(auto)]

ghost use Rattle.std.specs.Prelude.{◌≡◌, ◌+◌, ◌%◌, ◌^◌, ◌≤◌, ◌<◌, length};
ghost use Rattle.calls.specs.Sealing.{opening_tag};
ghost use Rattle.calls.specs.Tweak.{blocks_of};
ghost use Rattle.text_blocks.specs.Text.{Part};
ghost use Rattle.text_blocks.specs.Under.{enciphers, deciphers, pad_of, PadFor};
ghost use Rattle.sealing.specs.Passes.{text_part, text_in, text_sum};

use block_numbers::TextBlock;
use text_blocks::setting::{Context, Setting};

// The text of a part of the ciphertext c, as long as `work` and from block `first` on, in `work`; `pad` is what is added to c's last block, and is
// any where the part ends before that block.
pub fn window(u: &Setting<'_>, c: &[u8], first: TextBlock, pad: [u8; 16], work: &mut [u8])
    requires { (length c.now ≤ 2 ^ 24)
        × Part (length c.now) first.0 (length work.old)
        × PadFor u.now.suite u.now.key u.now.nonce.now (length c.now) first.0 (length work.old) pad }
    ensures { work.new ≡ text_part u.now.suite u.now.key u.now.nonce.now c.now first.0 (length work.old) }
{
    let m = c.len();
    let at = first.place();
    let end = at + work.len();
    blockwise::copy(&c[at..end], work);
    text_blocks::through(u, m, first, pad, work);
}

// A ciphertext of at most 2^24 bytes under its setting, with what is added to its last block, if it has one.
#[derive(Clone, Copy)]
struct Ciphertext<'a, 'b> {
    setting: Setting<'a>,
    bytes: &'b [u8],
    pad: [u8; 16],
    ghost small: { length bytes.now ≤ 2 ^ 24 },
    ghost padded: { 0 < length bytes.now → pad ≡ pad_of setting.suite setting.key setting.nonce.now (length bytes.now) },
}

impl Ciphertext<'_, '_> {
    // The text of a part, as long as `work` and from block `first` on, in `work`; its blocks are added to the sum of those before them.
    fn add_window(&self, first: TextBlock, sum: [u8; 16], work: &mut [u8]) -> [u8; 16]
        requires { let S = self.now.setting in
            Part (length self.now.bytes.now) first.0 (length work.old)
            × (sum ≡ text_sum S.suite S.key S.nonce.now self.now.bytes.now first.0) }
        ensures { let S = self.now.setting in
            (result ≡ text_sum S.suite S.key S.nonce.now self.now.bytes.now (first.0 + blocks_of (length work.old)))
            × (work.new ≡ text_part S.suite S.key S.nonce.now self.now.bytes.now first.0 (length work.old)) }
    {
        window(&self.setting, self.bytes, first, self.pad, work);
        sums::add_all(sum, work)
    }

    // The sum of all blocks of the text, where that of those before `first` is known.
    fn add_rest(&self, first: TextBlock, sum: [u8; 16]) -> [u8; 16]
        requires { let S = self.now.setting in
            (first.0 ≤ blocks_of (length self.now.bytes.now))
            × (sum ≡ text_sum S.suite S.key S.nonce.now self.now.bytes.now first.0) }
        ensures { let S = self.now.setting in
            result ≡ text_sum S.suite S.key S.nonce.now self.now.bytes.now (blocks_of (length self.now.bytes.now)) }
    {
        let left = self.bytes.len().saturating_sub(first.place());
        let turns = left.div_ceil(1024);
        let mut work = [0u8; 1024];
        let mut all = sum;
        for i in 0..turns {
            let n = (left - 1024 * i).min(1024);
            let more = self.add_window(first.after(64 * i), all, &mut work[..n]);
            all = more;
        }
        all
    }
}

// The tag that belongs to the text of the ciphertext c, and in `work`, as far as it goes, the start of that text.
pub fn tag_of(u: &Context<'_, '_>, c: &[u8], work: &mut [u8]) -> [u8; 16]
    requires { (length c.now ≤ 2 ^ 24)
        × (length work.old % 16 ≡ 0) }
    ensures { let S = u.now.setting in
        (result ≡ opening_tag (enciphers S.suite S.key) (deciphers S.suite S.key) S.nonce.now u.now.header.now c.now)
        × (work.new ≡ text_in S.suite S.key S.nonce.now c.now work.old) }
{
    let m = c.len();
    let known = batch::opening::known(u, m, text_blocks::last_bytes(m));
    let sum = known.sum;
    let pad = known.pad;
    let setting = u.setting;
    let text = Ciphertext {
        setting,
        bytes: c,
        pad,
    };
    let n = m.min(work.len());
    let start = TextBlock::start();
    let first = text.add_window(start, [0u8; 16], &mut work[..n]);
    let next = start.after(text_blocks::blocks_of(n));
    let all = text.add_rest(next, first);
    mode::tag::make(&u.setting, m, all, sum)
}
