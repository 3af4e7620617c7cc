// The source of a unit that was checked, deciphered without its seal; for our own crates, which have checked the book and lend the room.
#![tactic(auto)]

ghost use Rattle.std.specs.Prelude.{◌≡◌, ◌+◌, ◌≤◌, length, Ok};
ghost use Rattle.fields.specs.Unit.{source_length};
ghost use Rattle.kinds.specs.Kind.{kind_of};
ghost use Rattle.text_blocks.specs.Under.{pad_of};
ghost use Rattle.sealing.specs.Passes.{Passable, text_of};
ghost use Rattle.seals.specs.Seal.{unit_opened};
ghost use Rattle.checker.specs.Check.{checked_at};
ghost use Rattle.sources.specs.Source.{HasFront, HasSource};

use block_numbers::TextBlock;
use parser::frame::Frame;
use seals::reading::Reading;
use suites::suite::Suite;
use text_blocks::setting::Setting;

// What is added to the last block of a text of m bytes, for a part that ends at `end`; for one that ends before the text, zeros, and nothing is
// enciphered.
fn pad_up_to(u: &Setting<'_>, m: usize, end: usize) -> [u8; 16]
    ensures { end ≡ m → result ≡ pad_of u.now.suite u.now.key u.now.nonce.now m }
{
    if end < m {
        return [0u8; 16];
    }
    text_blocks::pad(u, m, text_blocks::last_bytes(m))
}

// The start of the text of the ciphertext c, up to the end of its source, at the start of `work`: its first block, which says the length, then
// as many as the source needs. The source's length.
fn text_start(suite: Suite, key: [u8; 16], nonce: &[u8], c: &[u8], work: &mut [u8]) -> usize
    requires { Passable suite nonce.now c.now
        × (2 + source_length (text_of suite key nonce.now c.now) ≤ length c.now)
        × (source_length (text_of suite key nonce.now c.now) ≤ 4096)
        × (4112 ≤ length work.old) }
    ensures { HasFront (text_of suite key nonce.now c.now) work.old work.new result }
{
    let u = Setting { suite, key, nonce };
    let m = c.len();
    let first = sealing::counts::lesser(m, 16);
    let start = TextBlock::start();
    let pad = pad_up_to(&u, m, first);
    passes::window(&u, c, start, pad, &mut work[..first]);
    let len = fields::field::pair(work[0], work[1]);
    let end = sealing::counts::lesser(m, 16 * ((len + 17) / 16));
    if 16 < end {
        let pad = pad_up_to(&u, m, end);
        passes::window(&u, c, start.after(1), pad, &mut work[16..end]);
    }
    len
}

// The source of the unit at the start of s, which was checked and whose ciphertext has m bytes, from byte 2 of `work` on: its length. `work`
// has 4,112 bytes at least, so that the longest source has room in whole blocks.
pub fn source(r: &Reading<'_>, n: u64, m: usize, s: &[u8], work: &mut [u8]) -> usize
    requires { (checked_at (kind_of r.now.kind) r.now.key.now r.now.front.now n s.now ≡ Ok (Frame.Unit m))
        × (4112 ≤ length work.old) }
    ensures { HasSource
        (unit_opened (kind_of r.now.kind) r.now.key.now r.now.front.now n m s.now)
        work.old work.new result }
{
    let suite = opening_fields::suite(r.front);
    let nonce = format::layout::nonce(opening_fields::number(r.front), n);
    let k = blockwise::block_at(r.key, 0);
    let start = r.kind.ciphertext_at();
    let end = start + m;
    text_start(suite, k, &nonce, &s[start..end], work)
}
