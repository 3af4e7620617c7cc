// Runs the cases that another implementation made and writes what comes out. The file `stdout` beside this folder is made from the
// same cases by tests/expected.
#![tactic(auto)]

mod case_file;

use case_file::{Fields, Lines};
use std::rt::Files;
use std::{fs, io};
use suites::suite::Suite;

// What the cases of a file are of.
#[derive(Clone, Copy)]
enum Kind {
    Cipher,
    Seal,
    Open,
    Check,
    Fetch,
    Page,
}

// Room for a file, for a text or sealed bytes, and for a short book, a header or a typed sentence.
const FILE: usize = 262144;

const TEXT: usize = 16384;

const SHORT: usize = 4096;

fn write_byte(rt: &impl Print, b: u8) -> io::Result<()> {
    print!(rt; "{b:02X}")
}

// The first n bytes in digits, or `-` for none.
fn write_bytes(rt: &impl Print, bytes: &[u8], n: usize) -> io::Result<()> {
    if n == 0 {
        report::text(rt, b"-")?;
    }
    for b in bytes.iter().take(n) {
        write_byte(rt, *b)?;
    }
    Ok(())
}

// A suite of a case and a blank.
fn write_suite(rt: &impl Print, suite: Suite) -> io::Result<()> {
    write_byte(rt, suite.cipher)?;
    write_byte(rt, suite.steps)?;
    report::text(rt, b" ")
}

// Suite, key, tweak, block and the block enciphered: the suite, what enciphering the block gives, and what deciphering the other one gives.
fn run_cipher(rt: &impl Print, mut fields: Fields<'_>) -> io::Result<()> {
    let suite = fields.suite();
    write_suite(rt, suite)?;
    let key = fields.block();
    let tweak = fields.block();
    let mut enciphered = fields.block();
    let _ = cipher::block::encipher(suite, key, tweak, &mut enciphered);
    let mut deciphered = fields.block();
    let _ = cipher::block::decipher(suite, key, tweak, &mut deciphered);
    write_bytes(rt, &enciphered, 16)?;
    report::text(rt, b" ")?;
    write_bytes(rt, &deciphered, 16)
}

// What a text is sealed and opened under.
#[derive(Clone, Copy)]
struct Under<'a> {
    suite: Suite,
    key: &'a [u8],
    nonce: &'a [u8],
    header: &'a [u8],
}

impl Under<'_> {
    // The sealed bytes and the number of cipher calls.
    fn write_sealed(&self, rt: &impl Print, text: &[u8]) -> io::Result<()> {
        let mut out = input::buffer::<TEXT>();
        match sealing::seal::seal(
            self.suite,
            self.key,
            self.nonce,
            self.header,
            text,
            &mut out,
        ) {
            Ok(sealed) => {
                write_bytes(rt, &out, sealed.len)?;
                report::text(rt, b" ")?;
                report::number(rt, sealed.calls as u64)
            }
            Err(why) => report::refusal(rt, why),
        }
    }

    // The text, and its first two bytes, with ciphertext and tag apart.
    fn write_opened(&self, rt: &impl Print, sealed: &[u8]) -> io::Result<()> {
        self.write_text(rt, sealed)?;
        report::text(rt, b" ")?;
        self.write_start(rt, sealed)
    }

    fn write_text(&self, rt: &impl Print, sealed: &[u8]) -> io::Result<()> {
        let mut out = input::buffer::<TEXT>();
        match opening::open::open(
            self.suite,
            self.key,
            self.nonce,
            self.header,
            sealed,
            &mut out,
        ) {
            Ok(n) => write_bytes(rt, &out, n),
            Err(why) => report::refusal(rt, why),
        }
    }

    // `-` where there is no tag.
    fn write_start(&self, rt: &impl Print, sealed: &[u8]) -> io::Result<()> {
        if sealed.len() < 16 {
            return report::text(rt, b"-");
        }
        let m = sealed.len() - 16;
        let tag = blockwise::block_at(sealed, m);
        match verifying::verify::verify_apart(
            self.suite,
            self.key,
            self.nonce,
            self.header,
            &sealed[..m],
            tag,
        ) {
            Ok(start) => write_bytes(rt, &start, 2),
            Err(why) => report::refusal(rt, why),
        }
    }
}

// Suite, key, nonce, header, and the text that is sealed or the sealed bytes that are opened: the suite, and what `write` makes of them.
fn run_tae<W>(rt: &impl Print, mut fields: Fields<'_>, write: W) -> io::Result<()>
where
    W: Fn(&Under<'_>, &[u8]) -> io::Result<()>,
    requires { W.IsAlwaysCallable write }
{
    let mut key = [0u8; 32];
    let mut nonce = [0u8; 32];
    let mut header = input::buffer::<SHORT>();
    let mut text = input::buffer::<TEXT>();
    let suite = fields.suite();
    write_suite(rt, suite)?;
    let under = Under {
        suite,
        key: fields.bytes(&mut key),
        nonce: fields.bytes(&mut nonce),
        header: fields.bytes(&mut header),
    };
    write(&under, fields.bytes(&mut text))
}

// Key and book: the unit count and the call total.
fn run_check(rt: &impl Print, mut fields: Fields<'_>) -> io::Result<()> {
    let mut key = [0u8; 32];
    let mut book = input::buffer::<TEXT>();
    let key = fields.bytes(&mut key);
    let book = fields.bytes(&mut book);
    match checker::check::check(key, book) {
        Ok(totals) => {
            report::text(rt, b"ok:")?;
            report::number(rt, totals.units)?;
            report::text(rt, b":")?;
            report::number(rt, totals.calls)
        }
        Err(why) => report::refusal(rt, why),
    }
}

// Source and target of unit k, fetched into a buffer.
fn write_fetched(
    rt: &impl Print,
    key: &[u8],
    book: &[u8],
    k: u64,
    out: &mut [u8],
) -> io::Result<()> {
    match fetch::unit::fetch(key, book, k, out) {
        Ok(lengths) => {
            write_bytes(rt, out, lengths.source)?;
            report::text(rt, b":")?;
            if let Some(target) = out.get(lengths.source..) {
                write_bytes(rt, target, lengths.target)?;
            }
            Ok(())
        }
        Err(why) => report::refusal(rt, why),
    }
}

// Where the ciphertext of unit k stands in a book, and its length.
fn write_part(rt: &impl Print, book: &[u8], k: u64) -> io::Result<()> {
    let part = walk::ciphertext::place(book, k);
    report::text(rt, b" ")?;
    report::number(rt, part.at as u64)?;
    report::text(rt, b" ")?;
    report::number(rt, part.len as u64)
}

// Key, book, a unit's number and how many bytes the output has: source and target, and the ciphertext part.
fn run_fetch(rt: &impl Print, mut fields: Fields<'_>) -> io::Result<()> {
    let mut key = [0u8; 32];
    let mut book = input::buffer::<SHORT>();
    let mut out = input::buffer::<TEXT>();
    let key = fields.bytes(&mut key);
    let book = fields.bytes(&mut book);
    let k = fields.number();
    let room = fields.number_to(TEXT);
    write_fetched(rt, key, book, k, &mut out[..room])?;
    write_part(rt, book, k)
}

// Key, book, typed sentence and how many bytes the page's buffer has: the page.
fn run_page(rt: &impl Print, mut fields: Fields<'_>) -> io::Result<()> {
    let mut key = [0u8; 32];
    let mut book = input::buffer::<SHORT>();
    let mut typed = input::buffer::<SHORT>();
    let mut out = input::buffer::<TEXT>();
    let key = fields.bytes(&mut key);
    let book = fields.bytes(&mut book);
    let typed = fields.bytes(&mut typed);
    let room = fields.number_to(TEXT);
    match page::page(key, book, typed, &mut out[..room]) {
        Ok(len) => write_bytes(rt, &out, len),
        Err(why) => report::refusal(rt, why),
    }
}

// One case, by what its file has.
fn run_case(rt: &impl Print, kind: Kind, fields: Fields<'_>) -> io::Result<()> {
    match kind {
        Kind::Cipher => run_cipher(rt, fields)?,
        Kind::Seal => run_tae(rt, fields, |under, text| under.write_sealed(rt, text))?,
        Kind::Open => run_tae(rt, fields, |under, sealed| under.write_opened(rt, sealed))?,
        Kind::Check => run_check(rt, fields)?,
        Kind::Fetch => run_fetch(rt, fields)?,
        Kind::Page => run_page(rt, fields)?,
    }
    report::text(rt, b"\n")
}

fn run_file(rt: &(impl Files + Print + Eprint), kind: Kind, path: &str) -> io::Result<()> {
    let mut file = match fs::open(rt, path) {
        Ok(file) => file,
        Err(e) => return eprintln!(rt; "{path}: {e}"),
    };
    let mut buf = input::buffer::<FILE>();
    let (n, _) = input::read_full(&mut file, &mut buf);
    for fields in Lines::of(&buf[..n]) {
        if !fields.is_comment() {
            run_case(rt, kind, fields)?;
        }
    }
    Ok(())
}

fn main(rt: HostRuntime) -> io::Result<()> {
    run_file(&rt, Kind::Cipher, "cipher.txt")?;
    run_file(&rt, Kind::Seal, "seal.txt")?;
    run_file(&rt, Kind::Open, "open.txt")?;
    run_file(&rt, Kind::Check, "book.txt")?;
    run_file(&rt, Kind::Check, "books.txt")?;
    run_file(&rt, Kind::Fetch, "fetch.txt")?;
    run_file(&rt, Kind::Page, "page.txt")
}
