// The limits of known values 9, 10 and 11: what comes out is held to the file `stdout` beside this folder, which tests/expected makes.
#![tactic(auto)]

ghost use Rattle.std.specs.Prelude.{◌≤◌, length};

use std::io;
use suites::refusal::Refusal;
use suites::suite::Suite;
use writer::Written;

// Whether header and text pass under a nonce of 15 bytes; one of the two is empty.
fn run_limit(rt: &impl Print, name: &[u8], header: &[u8], text: &[u8]) -> io::Result<()>
    requires { (length header.now ≤ 4096)
        × (length text.now ≤ 4096) }
{
    let mut out = [0u8; 4096];
    let suite = Suite {
        cipher: Suite::SCREAM,
        steps: 10,
    };
    report::text(rt, name)?;
    report::number(rt, (header.len() + text.len()) as u64)?;
    report::text(rt, b" ")?;
    match sealing::seal::seal(suite, &[0u8; 16], &[0u8; 15], header, text, &mut out) {
        Ok(_) => report::text(rt, b"passes")?,
        Err(why) => report::refusal(rt, why)?,
    }
    report::text(rt, b"\n")
}

fn write_answer(rt: &impl Print, answer: Result<(), Refusal>) -> io::Result<()> {
    match answer {
        Ok(()) => report::text(rt, b"passes\n"),
        Err(why) => {
            report::refusal(rt, why)?;
            report::text(rt, b"\n")
        }
    }
}

// Whether a book can be started in this buffer.
fn run_start(rt: &impl Print, buf: &mut [u8]) -> io::Result<()> {
    let suite = Suite {
        cipher: Suite::SCREAM,
        steps: 10,
    };
    report::text(rt, b"start ")?;
    report::number(rt, buf.len() as u64)?;
    report::text(rt, b" ")?;
    write_answer(rt, Written::start(suite, &[0u8; 16], 7, buf).answer)
}

// Whether a unit with this source can be added to a new book.
fn run_source(rt: &impl Print, source: &[u8]) -> io::Result<()> {
    let mut buf = [0u8; 4160];
    let suite = Suite {
        cipher: Suite::SCREAM,
        steps: 10,
    };
    report::text(rt, b"source ")?;
    report::number(rt, source.len() as u64)?;
    report::text(rt, b" ")?;
    let started = Written::start(suite, &[0u8; 16], 7, &mut buf);
    let added = started.add(*b"en", *b"de", source, b"", &mut buf);
    write_answer(rt, added.answer)
}

fn run_limits(rt: &impl Print) -> io::Result<()> {
    run_limit(rt, b"text ", b"", &[0u8; 2048])?;
    run_limit(rt, b"text ", b"", &[0u8; 2049])?;
    run_limit(rt, b"header ", &[0u8; 1024], b"")?;
    run_limit(rt, b"header ", &[0u8; 1025], b"")
}

fn run_writer(rt: &impl Print) -> io::Result<()> {
    run_start(rt, &mut [0u8; 15])?;
    run_start(rt, &mut [0u8; 16])?;
    run_source(rt, &[0u8; 4096])?;
    run_source(rt, &[0u8; 4097])?;
    run_source(rt, b"")
}

fn main(rt: HostRuntime) -> io::Result<()> {
    run_limits(&rt)?;
    run_writer(&rt)
}
