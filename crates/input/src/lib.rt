// What the programs vectors, check_book and ciphertext_part read, and room for it.
#![tactic(auto)]

ghost use Rattle.std.specs.Prelude.{◌≡◌, ◌<◌, length, take, OnOk};
ghost use Rattle.std.specs.Counts.{IsPrefixLen};
ghost use Rattle.std.specs.Io.KnownBytes.{Consumes, IsAtEnd};

use std::io;
use std::io::Read;

// Room for N bytes. Its caller's proof has the length and not the zeros: to count them would be slow.
pub fn buffer<const N: usize>() -> [u8; N]
    ensures { N ≡ length result }
{
    [0; N]
}

// Reads until buf is full, the input ends or a read fails, and returns how many bytes it put at the start of buf, which are the next ones
// that the reader has, and whether a read failed. Where none did and buf is not full, the input is at its end. A while
// loop: how much a read gives is the reader's to say.
pub fn read_full<R: Read>(reader: &mut R, buf: &mut [u8]) -> (usize, io::Result<()>)
    ensures within { IsPrefixLen result.0 buf.new }
    ensures bytes { Consumes (R.remaining reader.old) (R.remaining reader.new) (take result.0 buf.new) }
    ensures end { OnOk result.1 (result.0 < length buf.new → IsAtEnd (R.remaining reader.new)) }
{
    let mut done = 0;
    while done < buf.len() {
        match reader.read(&mut buf[done..]) {
            Ok(0) => break,
            Ok(n) => done += n,
            Err(e) => return (done, Err(e)),
        }
    }
    (done, Ok(()))
}
