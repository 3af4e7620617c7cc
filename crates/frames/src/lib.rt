// A unit and a close, put where a part of the buffer starts. Each public function serves the writer, which has tested what it asks.
#![tactic(auto)]

ghost use Rattle.std.specs.Prelude.{true, ◌≡◌, ◌++◌, ◌+◌, ◌≤◌, length, take, drop};
ghost use Rattle.suites.specs.Suite.{listed};
ghost use Rattle.fields.specs.Field.{field};
ghost use Rattle.kinds.specs.Kind.{kind_of};
ghost use Rattle.kinds.specs.Lengths.{unit_length, close_length};
ghost use Rattle.format.specs.Layout.{sealed_fields, unit_bytes, close_bytes};
ghost use Rattle.format.specs.Sealings.{unit_sealing, close_sealing};
ghost use Rattle.fields.specs.Unit.{unit_of, unit_text, in_range};
ghost use Rattle.frames.specs.Parts.{Within, tag_apart, Put, PutSealed, sealing_of};

use kinds::Kind;
use suites::suite::Suite;
use writer_state::Writer;

// The text of a unit. Source and target stand apart here and in what calls this, as in the writer's add: a struct of the two is no plainer,
// since each clause would take it apart.
fn put_text(source: &[u8], target: &[u8], out: &mut [u8])
    requires { 2 + (length source.now + length target.now) ≤ length out.old }
    ensures { out.new ≡ unit_text source.now target.now
        ++ drop (2 + (length source.now + length target.now)) out.old }
{
    let s = source.len();
    let n = 2 + s;
    format::bytes::number_then(s as u64, 2, source, out);
    blockwise::copy(target, &mut out[n..]);
}

// The tag that stands there, as field 12.
fn put_tag(out: &mut [u8])
    requires { 19 ≤ length out.old }
    ensures { out.new ≡ field 0x12 (take 16 out.old) ++ drop 19 out.old }
{
    let tag = blockwise::block_at(out, 0);
    let head = fields::field::head(0x12, 16);
    blockwise::copy(&head, out);
    blockwise::put_at(out, 3, tag);
}

// The sealed bytes of the first m bytes, in their place, with the tag as field 12; the number of cipher calls. What is asked here leaves
// nothing to refuse.
fn seal_here(
    suite: Suite,
    key: [u8; 16],
    nonce: &[u8],
    header: &[u8],
    m: usize,
    out: &mut [u8],
) -> u64
    requires { Within suite nonce.now header.now m
        × (m + 19 ≤ length out.old) }
    ensures { PutSealed suite key
        (sealing_of nonce.now header.now (take m out.old))
        (tag_apart m)
        (m + 19)
        out.old out.new result }
{
    let answer = sealing::seal::seal_in_place(suite, &key, nonce, header, m, out);
    put_tag(&mut out[m..]);
    answer.unwrap().calls as u64
}

// A unit's text, sealed, as fields 11 and 12; the number of cipher calls.
fn put_sealed(
    suite: Suite,
    key: [u8; 16],
    nonce: &[u8],
    header: &[u8],
    source: &[u8],
    target: &[u8],
    out: &mut [u8],
) -> u64
    requires { Within suite nonce.now header.now (2 + (length source.now + length target.now))
        × (24 + (length source.now + length target.now) ≤ length out.old) }
    ensures { PutSealed suite key
        (sealing_of nonce.now header.now (unit_text source.now target.now))
        (sealed_fields (length (unit_text source.now target.now)))
        (24 + (length source.now + length target.now))
        out.old out.new result }
{
    let m = 2 + (source.len() + target.len());
    put_text(source, target, &mut out[3..]);
    let head = fields::field::head(0x11, m);
    blockwise::copy(&head, out);
    seal_here(suite, key, nonce, header, m, &mut out[3..])
}

// The writer's next unit; the number of cipher calls.
pub fn put_unit(
    kind: Kind,
    w: Writer,
    from: [u8; 2],
    to: [u8; 2],
    source: &[u8],
    target: &[u8],
    out: &mut [u8],
) -> u64
    requires { (listed w.suite.cipher w.suite.steps ≡ true)
        × (in_range (length source.now) (length target.now) ≡ true)
        × (unit_length (kind_of kind) (length source.now) (length target.now) ≤ length out.old) }
    ensures { Put
        (unit_sealing (kind_of kind) w.suite w.number w.count (unit_of from to source.now target.now))
        (unit_bytes (kind_of kind) w.suite w.key w.number w.count
        (unit_of from to source.now target.now))
        (unit_length (kind_of kind) (length source.now) (length target.now))
        out.old out.new result }
{
    let nonce = format::layout::nonce(w.number, w.count);
    let along = format::layout::unit_along(kind, w.suite, w.number, w.count, from, to);
    let header = along.as_slice();
    let h = kind.header_len();
    blockwise::copy(&header[16..], out);
    put_sealed(
        w.suite,
        w.key,
        &nonce,
        header,
        source,
        target,
        &mut out[h..],
    )
}

// The close after the writer's units; the number of cipher calls.
pub fn put_close(kind: Kind, w: Writer, out: &mut [u8]) -> u64
    requires { (listed w.suite.cipher w.suite.steps ≡ true)
        × (close_length (kind_of kind) ≤ length out.old) }
    ensures { Put
        (close_sealing (kind_of kind) w.suite w.number w.count)
        (close_bytes (kind_of kind) w.suite w.key w.number w.count)
        (close_length (kind_of kind))
        out.old out.new result }
{
    let last = format::layout::nonce(w.number, w.count);
    let along = format::layout::close_along(kind, w.suite, w.number, w.count);
    let header = along.as_slice();
    let h = kind.close_header_len();
    blockwise::copy(&header[16..], out);
    seal_here(w.suite, w.key, &last, header, 0, &mut out[h..])
}
