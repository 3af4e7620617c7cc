// The tag: made, and compared. A function with a precondition serves our own crates, which have tested what it asks.
ghost use Rattle.std.specs.Prelude.{◌≡◌};
ghost use Rattle.calls.specs.Pieces.{tag_from};
ghost use Rattle.bits.specs.Bytes.{same_bytes};
ghost use Rattle.text_blocks.specs.Under.{enciphers};

use text_blocks::setting::Setting;

// The tag of a text of m bytes, by its checksum and the header's sum.
pub fn make(u: &Setting<'_>, m: usize, checksum: [u8; 16], sum: [u8; 16]) -> [u8; 16]
    ensures { result ≡ tag_from (enciphers u.now.suite u.now.key) u.now.nonce.now m checksum sum }
{
    let t = tweak::special_tweak(u.nonce, text_blocks::marks::tag_mark(m));
    sums::add(text_blocks::encipher_one(u, t, checksum), sum)
}

// Whether two tags are the same; every byte is compared, in a loop with no way out, where `==` may stop at the first that differs.
pub fn same(a: [u8; 16], b: [u8; 16]) -> bool
    ensures { result ≡ same_bytes 16 a b }
{
    let mut d: u8 = 0;
    for i in 0..16 {
        d |= a[i] ^ b[i];
    }
    d == 0
}
