// The header's sum.
ghost use Rattle.std.specs.Prelude.{◌≡◌, ◌+◌, ◌*◌, ◌^◌, ◌≤◌, length};
ghost use Rattle.calls.specs.Calls.{sum_of};
ghost use Rattle.calls.specs.Pieces.{header_sum};
ghost use Rattle.calls.specs.Tweak.{header_tweak};
ghost use Rattle.blockwise.specs.Blocks.{block};
ghost use Rattle.sums.specs.Sums.{sum_from};
ghost use Rattle.text_blocks.specs.Under.{enciphers};

use block_numbers::HeaderBlock;
use text_blocks::setting::{Context, Setting};

// The first k blocks of the header enciphered, each under the tweak of its number, from `first` on, and added to a sum.
// A function of its own beside that of text_blocks: the header is only read, its numbers are another count, and the outcomes are added up.
fn chunk(u: &Setting<'_>, first: HeaderBlock, k: usize, header: &[u8], sum: [u8; 16]) -> [u8; 16]
    requires { (k ≤ 64)
        × (16 * k ≤ length header.now)
        × (first.0 + k ≤ 2 ^ 32) }
    ensures { result
        ≡ sum_from sum k (λ i. enciphers u.now.suite u.now.key (header_tweak u.now.nonce.now (first.0 + i)) (block header.now i)) }
{
    let mut tweaks = [0u8; 1024];
    let mut blocks = [0u8; 1024];
    let end = 16 * k;
    tweak::header_tweaks(u.nonce, first, k, &mut tweaks);
    blockwise::copy(&header[..end], &mut blocks);
    cipher::blocks::cipher_blocks(true, u.suite, u.key, &tweaks[..end], &mut blocks);
    sums::add_blocks(sum, &blocks[..end])
}

// The first n blocks of the header, none of them last, enciphered and added up.
fn inner(u: &Context<'_, '_>, n: usize) -> [u8; 16]
    requires { 16 * n ≤ length u.now.header.now }
    ensures { let S = u.now.setting in
        result ≡ sum_of n (λ i. enciphers S.suite S.key (header_tweak S.nonce.now i) (block u.now.header.now i)) }
{
    let mut sum = [0u8; 16];
    let turns = n.div_ceil(64);
    for i in 0..turns {
        let done = 64 * i;
        let k = (n - done).min(64);
        let first = HeaderBlock::start().after(done);
        let more = chunk(&u.setting, first, k, &u.header[16 * done..], sum);
        sum = more;
    }
    sum
}

// All blocks of the header enciphered and added up; zero for an empty header.
pub fn sum(u: &Context<'_, '_>) -> [u8; 16]
    ensures { let S = u.now.setting in
        result ≡ header_sum (enciphers S.suite S.key) S.nonce.now u.now.header.now }
{
    let a = u.header.len();
    if a == 0 {
        return [0u8; 16];
    }
    let n = (a - 1) / 16;
    let whole = inner(u, n);
    let at = 16 * n;
    let last = sums::fill(&u.header[at..], 0x80);
    let t = tweak::special_tweak(u.setting.nonce, text_blocks::marks::last_header_mark(a));
    sums::add(whole, text_blocks::encipher_one(&u.setting, t, last))
}
