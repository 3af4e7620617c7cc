// A sealing's last run: the header's calls, those of the text's last blocks, and the tag's.
ghost use Rattle.std.specs.Prelude.{◌≡◌, ◌+◌, ◌*◌, ◌^◌, ◌≤◌, length};
ghost use Rattle.calls.specs.Pieces.{through, header_sum, tag_from};
ghost use Rattle.text_blocks.specs.Under.{enciphers};

use block_numbers::TextBlock;
use text_blocks::setting::Context;

// The rest s of a text, from block `first` on, enciphered in its place, and the tag; of a header of at most 63 blocks.
fn run(u: &Context<'_, '_>, checksum: [u8; 16], first: TextBlock, s: &mut [u8]) -> [u8; 16]
    requires { (length u.now.header.now ≤ 1008)
        × (16 * first.0 + length s.old ≤ 2 ^ 24)
        × (length s.old ≤ 1024) }
    ensures { let S = u.now.setting in
        let e = enciphers S.suite S.key in
        let m = 16 * first.0 + length s.old in
        (result ≡ tag_from e S.nonce.now m checksum (header_sum e S.nonce.now u.now.header.now))
        × (s.new ≡ through e e S.nonce.now m first.0 s.old) }
{
    let mut tweaks = [0u8; 2048];
    let mut blocks = [0u8; 2048];
    let nonce = u.setting.nonce;
    let m = first.place() + s.len();
    let h = 16 * text_blocks::blocks_of(u.header.len());
    let t = h + 16 * text_blocks::blocks_of(s.len());
    crate::header::put(nonce, u.header, &mut tweaks, &mut blocks);
    crate::text::put(nonce, first, s, &mut tweaks[h..], &mut blocks[h..]);
    blockwise::put_at(
        &mut tweaks,
        t,
        tweak::special_tweak(nonce, text_blocks::marks::tag_mark(m)),
    );
    blockwise::put_at(&mut blocks, t, checksum);
    cipher::blocks::cipher_blocks(
        true,
        u.setting.suite,
        u.setting.key,
        &tweaks[..t + 16],
        &mut blocks,
    );
    crate::text::place(s, &blocks[h..t]);
    let sum = sums::add_blocks([0u8; 16], &blocks[..h]);
    sums::add(blockwise::block_at(&blocks, t), sum)
}

// The same of any header: one of more than 63 blocks is added up before.
pub fn rest(u: &Context<'_, '_>, checksum: [u8; 16], first: TextBlock, s: &mut [u8]) -> [u8; 16]
    requires { (16 * first.0 + length s.old ≤ 2 ^ 24)
        × (length s.old ≤ 1024) }
    ensures { let S = u.now.setting in
        let e = enciphers S.suite S.key in
        let m = 16 * first.0 + length s.old in
        (result ≡ tag_from e S.nonce.now m checksum (header_sum e S.nonce.now u.now.header.now))
        × (s.new ≡ through e e S.nonce.now m first.0 s.old) }
{
    if u.header.len() <= 1008 {
        return run(u, checksum, first, s);
    }
    let sum = mode::header::sum(u);
    let bare = Context {
        setting: u.setting,
        header: &u.header[..0],
    };
    let tag = run(&bare, checksum, first, s);
    sums::add(tag, sum)
}
