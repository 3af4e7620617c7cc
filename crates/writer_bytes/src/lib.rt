// The writer as 64 bytes. Which byte stands where is C's, so these are two functions, as std's `to_be_bytes` is, and no `From` of
// writer_state, which knows nothing of C.
#![tactic(auto)]

ghost use Rattle.std.specs.Prelude.{◌≡◌};
ghost use Rattle.writer_bytes.specs.WriterBytes.{writer_of, writer_bytes};

use suites::suite::Suite;
use writer_state::Writer;

// The writer of any 64 bytes.
pub fn from_bytes(b: [u8; 64]) -> Writer
    ensures { result ≡ writer_of b }
{
    Writer {
        suite: Suite {
            cipher: b[0],
            steps: b[1],
        },
        key: blockwise::block_at(&b, 16),
        number: fields::number::of(&b[8..16]),
        place: fields::number::of(&b[32..40]) as usize,
        count: fields::number::of(&b[40..48]),
        total: fields::number::of(&b[48..56]),
        closed: b[2] != 1,
    }
}

// The bytes of a writer.
pub fn to_bytes(w: Writer) -> [u8; 64]
    ensures { result ≡ writer_bytes w }
{
    let mut b = [0u8; 64];
    b[0] = w.suite.cipher;
    b[1] = w.suite.steps;
    b[2] = u8::from(!w.closed);
    fields::number::put(w.number, &mut b[8..16]);
    blockwise::put_at(&mut b, 16, w.key);
    fields::number::put(w.place as u64, &mut b[32..40]);
    fields::number::put(w.count, &mut b[40..48]);
    fields::number::put(w.total, &mut b[48..56]);
    b
}
