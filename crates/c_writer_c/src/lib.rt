// What C links of the functions that write a book, a name each. They are those of c_writer, with its clauses: c_writer is a library, since
// c_book's theorem speaks of its definitions, and only a static library hands functions to C.
#![tactic(auto)]

ghost use Rattle.std.specs.Prelude.{◌≡◌};
ghost use Rattle.fields.specs.Unit.{unit_of};
ghost use Rattle.writer_calls.specs.History.{add, close};
ghost use Rattle.writer_bytes.specs.WriterBytes.{writer_of};
ghost use Rattle.returned.specs.Returned.{suite_of};
ghost use Rattle.c_writer.specs.Written.{kept, CallsForC, StartsForC};

#[unsafe(no_mangle)]
pub extern "C" fn sb_start(
    cipher: u8,
    steps: u8,
    key: &[u8],
    number: u64,
    buf: &mut [u8],
    writer: &mut [u8; 64],
) -> u32
    ensures { StartsForC (suite_of cipher steps) key.now number buf.old
        result (kept writer.new buf.new) }
{
    c_writer::sb_start(cipher, steps, key, number, buf, writer)
}

#[unsafe(no_mangle)]
pub extern "C" fn sb_add(
    writer: &mut [u8; 64],
    buf: &mut [u8],
    from: &[u8; 2],
    to: &[u8; 2],
    source: &[u8],
    target: &[u8],
) -> u32
    ensures { CallsForC (add (unit_of from.now to.now source.now target.now))
        (kept writer.old buf.old) result (kept writer.new buf.new) }
{
    c_writer::sb_add(writer, buf, from, to, source, target)
}

#[unsafe(no_mangle)]
pub extern "C" fn sb_close(writer: &mut [u8; 64], buf: &mut [u8]) -> u32
    ensures { CallsForC close
        (kept writer.old buf.old) result (kept writer.new buf.new) }
{
    c_writer::sb_close(writer, buf)
}

#[unsafe(no_mangle)]
pub extern "C" fn sb_place(writer: &[u8; 64]) -> u64
    ensures { result ≡ (writer_of writer.now).place }
{
    c_writer::sb_place(writer)
}

#[unsafe(no_mangle)]
pub extern "C" fn sb_units(writer: &[u8; 64]) -> u64
    ensures { result ≡ (writer_of writer.now).count }
{
    c_writer::sb_units(writer)
}

#[unsafe(no_mangle)]
pub extern "C" fn sb_calls(writer: &[u8; 64]) -> u64
    ensures { result ≡ (writer_of writer.now).total }
{
    c_writer::sb_calls(writer)
}
