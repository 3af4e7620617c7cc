// The calls of the text's last blocks.
ghost use Rattle.std.specs.Prelude.{cond, ◌≡◌, ◌+◌, ◌*◌, ◌^◌, ◌≤◌, length};
ghost use Rattle.bits.specs.Bytes.{added};
ghost use Rattle.blockwise.specs.Blocks.{block, strung};
ghost use Rattle.calls.specs.Tweak.{blocks_of, inner};
ghost use Rattle.batch.specs.Batch.{put_first, text_tweak_of, text_block_of};

use block_numbers::TextBlock;

// Of the rest s of a text, from block `first` on: the calls' tweaks and blocks at the start of two buffers. Whole blocks stand before the rest, so
// that its last block is full where the text's is.
pub fn put(nonce: &[u8], first: TextBlock, s: &[u8], tweaks: &mut [u8], blocks: &mut [u8])
    requires { (length nonce.now ≤ 15)
        × (first.0 + blocks_of (length s.now) ≤ 2 ^ 32)
        × (16 * blocks_of (length s.now) ≤ length tweaks.old)
        × (16 * blocks_of (length s.now) ≤ length blocks.old) }
    ensures { let m = 16 * first.0 + length s.now in
        (tweaks.new ≡ put_first (blocks_of (length s.now)) (λ i. text_tweak_of nonce.now m (first.0 + i)) tweaks.old)
        × (blocks.new
        ≡ put_first (blocks_of (length s.now)) (λ i. text_block_of m (first.0 + i) (block s.now i)) blocks.old) }
{
    let n = s.len();
    if n == 0 {
        return;
    }
    let k = (n - 1) / 16;
    let at = 16 * k;
    tweak::text_tweaks(nonce, first, k, tweaks);
    blockwise::put_at(
        tweaks,
        at,
        tweak::special_tweak(nonce, text_blocks::marks::last_text_mark(n)),
    );
    blockwise::copy(&s[..at], blocks);
    blockwise::put_at(blocks, at, text_blocks::length_block(n - at));
}

// What the calls gave, put in the place of a text's rest: a block that is not last becomes its outcome; to the last one its outcome is added.
pub fn place(s: &mut [u8], outcomes: &[u8])
    requires { 16 * blocks_of (length s.old) ≤ length outcomes.now }
    ensures { s.new ≡ strung (blocks_of (length s.old))
        (λ i. cond (inner (length s.old) i) (block outcomes.now i) (added (block s.old i) (block outcomes.now i))) }
{
    let n = s.len();
    if n == 0 {
        return;
    }
    let at = 16 * ((n - 1) / 16);
    blockwise::copy(&outcomes[..at], &mut s[..at]);
    sums::add_to(&mut s[at..], blockwise::block_at(outcomes, at));
}
