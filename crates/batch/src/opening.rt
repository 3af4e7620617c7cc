// An opening's run of calls that are enciphered and known before the text: the header's, and the one for the text's last block, if it has one.
ghost use Rattle.std.specs.Prelude.{◌≡◌, ◌≤◌, ◌<◌, length};
ghost use Rattle.calls.specs.Calls.{length_block};
ghost use Rattle.calls.specs.Pieces.{header_sum};
ghost use Rattle.calls.specs.Tweak.{special_tweak, last_text_mark};
ghost use Rattle.text_blocks.specs.Under.{enciphers};

use text_blocks::setting::Context;

// The header's blocks enciphered and added up, and what is added to the last block of a text; of an empty text any bytes.
#[derive(Clone, Copy)]
pub struct SumAndPad {
    pub sum: [u8; 16],
    pub pad: [u8; 16],
}

// Both, of a text of m bytes whose last block has r; under a header of at most 63 blocks.
fn run(u: &Context<'_, '_>, m: usize, r: usize) -> SumAndPad
    requires { (length u.now.header.now ≤ 1008)
        × (r ≤ 16) }
    ensures { let S = u.now.setting in
        (result.sum ≡ header_sum (enciphers S.suite S.key) S.nonce.now u.now.header.now)
        × (0 < m → result.pad ≡ enciphers S.suite S.key (special_tweak S.nonce.now (last_text_mark m)) (length_block r)) }
{
    let mut tweaks = [0u8; 1024];
    let mut blocks = [0u8; 1024];
    let nonce = u.setting.nonce;
    let h = 16 * text_blocks::blocks_of(u.header.len());
    crate::header::put(nonce, u.header, &mut tweaks, &mut blocks);
    if m == 0 {
        cipher::blocks::cipher_blocks(
            true,
            u.setting.suite,
            u.setting.key,
            &tweaks[..h],
            &mut blocks,
        );
        return SumAndPad {
            sum: sums::add_blocks([0u8; 16], &blocks[..h]),
            pad: [0u8; 16],
        };
    }
    blockwise::put_at(
        &mut tweaks,
        h,
        tweak::special_tweak(nonce, text_blocks::marks::last_text_mark(m)),
    );
    blockwise::put_at(&mut blocks, h, text_blocks::length_block(r));
    cipher::blocks::cipher_blocks(
        true,
        u.setting.suite,
        u.setting.key,
        &tweaks[..h + 16],
        &mut blocks,
    );
    SumAndPad {
        sum: sums::add_blocks([0u8; 16], &blocks[..h]),
        pad: blockwise::block_at(&blocks, h),
    }
}

// The same of any header: one of more than 63 blocks is added up by itself.
pub fn known(u: &Context<'_, '_>, m: usize, r: usize) -> SumAndPad
    requires { r ≤ 16 }
    ensures { let S = u.now.setting in
        (result.sum ≡ header_sum (enciphers S.suite S.key) S.nonce.now u.now.header.now)
        × (0 < m → result.pad ≡ enciphers S.suite S.key (special_tweak S.nonce.now (last_text_mark m)) (length_block r)) }
{
    if u.header.len() <= 1008 {
        return run(u, m, r);
    }
    let sum = mode::header::sum(u);
    if m == 0 {
        return SumAndPad {
            sum,
            pad: [0u8; 16],
        };
    }
    SumAndPad {
        sum,
        pad: text_blocks::pad(&u.setting, m, r),
    }
}
