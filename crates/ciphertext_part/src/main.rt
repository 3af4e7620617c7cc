// Writes the ciphertext parts of units 0 to 3 of the book at standard input, a line each: the part's length, a blank, its bytes. They are
// written from the buffer that the book was read into.
#![tactic(auto)]

use std::io;

fn line(rt: &impl Print, part: &[u8]) -> io::Result<()> {
    report::number(rt, part.len() as u64)?;
    report::text(rt, b" ")?;
    report::text(rt, part)?;
    report::text(rt, b"\n")
}

fn lines(rt: &impl Print, book: &[u8]) -> io::Result<()> {
    line(rt, walk::ciphertext::ciphertext(book, 0))?;
    line(rt, walk::ciphertext::ciphertext(book, 1))?;
    line(rt, walk::ciphertext::ciphertext(book, 2))?;
    line(rt, walk::ciphertext::ciphertext(book, 3))
}

fn main(rt: HostRuntime) -> io::Result<()> {
    let mut buf = input::buffer::<65536>();
    let (n, _) = input::read_full(&mut rt.reader(), &mut buf);
    lines(&rt, &buf[..n])
}
