// The functions for C that seal and open, as include/sealed_book.h declares them: hence numbers for refusals, and a match each, since what is lent
// to be written differs.
#![tactic(auto)]

ghost use Rattle.std.specs.Prelude.{◌≡◌, [], ◌∷◌};
ghost use Rattle.sealing.specs.Seal.{seal_answer, seal_buffer, seal_told};
ghost use Rattle.opening.specs.Open.{open_answer, open_buffer, open_told};
ghost use Rattle.returned.specs.Returned.{Returns};

use suites::suite::Suite;

#[unsafe(no_mangle)]
pub extern "C" fn sb_seal(
    cipher: u8,
    steps: u8,
    key: &[u8],
    nonce: &[u8],
    header: &[u8],
    text: &[u8],
    out: &mut [u8],
    len: &mut u64,
    calls: &mut u64,
) -> u32
    ensures { Returns
        (seal_told (seal_answer cipher steps key.now nonce.now header.now text.now out.old))
        (len.old ∷ calls.old ∷ [])
        result
        (len.new ∷ calls.new ∷ [])
        × (out.new
        ≡ seal_buffer cipher steps key.now nonce.now header.now text.now out.old) }
{
    match sealing::seal::seal(Suite { cipher, steps }, key, nonce, header, text, out) {
        Err(why) => why.number(),
        Ok(sealed) => {
            *len = sealed.len as u64;
            *calls = sealed.calls as u64;
            0
        }
    }
}

#[unsafe(no_mangle)]
pub extern "C" fn sb_open(
    cipher: u8,
    steps: u8,
    key: &[u8],
    nonce: &[u8],
    header: &[u8],
    sealed: &[u8],
    out: &mut [u8],
    len: &mut u64,
) -> u32
    ensures { Returns
        (open_told (open_answer cipher steps key.now nonce.now header.now sealed.now out.old))
        (len.old ∷ [])
        result
        (len.new ∷ [])
        × (out.new
        ≡ open_buffer cipher steps key.now nonce.now header.now sealed.now out.old) }
{
    match opening::open::open(Suite { cipher, steps }, key, nonce, header, sealed, out) {
        Err(why) => why.number(),
        Ok(m) => {
            *len = m as u64;
            0
        }
    }
}
