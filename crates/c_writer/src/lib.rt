// The functions for C that write a book, as include/sealed_book.h declares them. `sb_place`, `sb_units` and `sb_calls` differ in the number that
// they say: C has a name for each.
#![tactic(auto)]

ghost use Rattle.std.specs.Prelude.{◌≡◌};
ghost use Rattle.fields.specs.Unit.{unit_of};
ghost use Rattle.writer_calls.specs.History.{add, close};
ghost use Rattle.suites.specs.Told.{by_answer};
ghost use Rattle.writer_bytes.specs.WriterBytes.{writer_of, writer_bytes};
ghost use Rattle.returned.specs.Returned.{returned, suite_of};
ghost use Rattle.c_writer.specs.Written.{kept, CallsForC, StartsForC};

use returned::code;
use suites::suite::Suite;
use writer::Written;

// The writer that C keeps, to go on with.
fn held(writer: &[u8; 64]) -> Written
    ensures { result.writer ≡ writer_of writer.now }
{
    Written {
        answer: Ok(()),
        writer: writer_bytes::from_bytes(*writer),
    }
}

// The number of an answer, and the writer kept; with a refusal the bytes stay as they are.
fn keep(next: Written, writer: &mut [u8; 64]) -> u32
    ensures number { result ≡ returned next.answer }
    ensures bytes { writer.new ≡ by_answer next.answer (writer_bytes next.writer) writer.old }
{
    match next.answer {
        Err(why) => why.number(),
        Ok(()) => {
            *writer = writer_bytes::to_bytes(next.writer);
            0
        }
    }
}

#[unsafe(no_mangle)]
pub extern "C" fn sb_start(
    cipher: u8,
    steps: u8,
    key: &[u8],
    number: u64,
    buf: &mut [u8],
    writer: &mut [u8; 64],
) -> u32
    ensures { StartsForC (suite_of cipher steps) key.now number buf.old
        result (kept writer.new buf.new) }
{
    let started = Written::start(Suite { cipher, steps }, key, number, buf);
    *writer = writer_bytes::to_bytes(started.writer);
    code(started.answer)
}

#[unsafe(no_mangle)]
pub extern "C" fn sb_add(
    writer: &mut [u8; 64],
    buf: &mut [u8],
    from: &[u8; 2],
    to: &[u8; 2],
    source: &[u8],
    target: &[u8],
) -> u32
    ensures { CallsForC (add (unit_of from.now to.now source.now target.now))
        (kept writer.old buf.old) result (kept writer.new buf.new) }
{
    keep(held(writer).add(*from, *to, source, target, buf), writer)
}

#[unsafe(no_mangle)]
pub extern "C" fn sb_close(writer: &mut [u8; 64], buf: &mut [u8]) -> u32
    ensures { CallsForC close
        (kept writer.old buf.old) result (kept writer.new buf.new) }
{
    keep(held(writer).close(buf), writer)
}

#[unsafe(no_mangle)]
pub extern "C" fn sb_place(writer: &[u8; 64]) -> u64
    ensures { result ≡ (writer_of writer.now).place }
{
    writer_bytes::from_bytes(*writer).place as u64
}

#[unsafe(no_mangle)]
pub extern "C" fn sb_units(writer: &[u8; 64]) -> u64
    ensures { result ≡ (writer_of writer.now).count }
{
    writer_bytes::from_bytes(*writer).count
}

#[unsafe(no_mangle)]
pub extern "C" fn sb_calls(writer: &[u8; 64]) -> u64
    ensures { result ≡ (writer_of writer.now).total }
{
    writer_bytes::from_bytes(*writer).total
}
