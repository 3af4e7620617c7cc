// The calls of the header's blocks.
ghost use Rattle.std.specs.Prelude.{◌≡◌, ◌*◌, ◌^◌, ◌≤◌, length};
ghost use Rattle.calls.specs.Calls.{header_call};
ghost use Rattle.calls.specs.Tweak.{blocks_of};
ghost use Rattle.batch.specs.Batch.{put_first};

use block_numbers::HeaderBlock;

// Their tweaks and their blocks at the start of two buffers.
pub fn put(nonce: &[u8], header: &[u8], tweaks: &mut [u8], blocks: &mut [u8])
    requires { (length nonce.now ≤ 15)
        × (length header.now ≤ 2 ^ 24)
        × (16 * blocks_of (length header.now) ≤ length tweaks.old)
        × (16 * blocks_of (length header.now) ≤ length blocks.old) }
    ensures { (tweaks.new
        ≡ put_first (blocks_of (length header.now)) (λ i. (header_call nonce.now header.now i).tweak) tweaks.old)
        × (blocks.new
        ≡ put_first (blocks_of (length header.now)) (λ i. (header_call nonce.now header.now i).block) blocks.old) }
{
    let a = header.len();
    if a == 0 {
        return;
    }
    let n = (a - 1) / 16;
    let at = 16 * n;
    tweak::header_tweaks(nonce, HeaderBlock::start(), n, tweaks);
    blockwise::put_at(
        tweaks,
        at,
        tweak::special_tweak(nonce, text_blocks::marks::last_header_mark(a)),
    );
    blockwise::copy(&header[..at], blocks);
    blockwise::put_at(blocks, at, sums::fill(&header[at..], 0x80));
}
