// Checks the book at standard input, behind the 16 bytes of its key, and writes one line: `ok units=1 calls=7`, `refused 8`, or `too long`.
#![tactic(auto)]

ghost use Rattle.std.specs.Prelude.{◌≡◌, ◌+◌, ◌≤◌, length, take, drop, Err};
ghost use Rattle.decimal.specs.Decimal.{digits, AtStart};
ghost use Rattle.checker.specs.Check.{check_answer};
ghost use Rattle.checker.specs.Check.{accepted};
ghost use Rattle.check_book.specs.Line.{answer_line, line};
ghost use Rattle.check_book.specs.Behind.{Behind};

use checker::check::Totals;
use std::io;
use suites::refusal::Refusal;

// Bytes put at a place of an output: the place behind them.
fn put_text(s: &[u8], out: &mut [u8], at: usize) -> usize
    requires { at + length s.now ≤ length out.old }
    ensures { Behind at s.now out.old out.new result }
{
    blockwise::copy(s, &mut out[at..]);
    at + s.len()
}

// The same of a number's digits, of which there are at most 20.
fn put_number(n: u64, out: &mut [u8], at: usize) -> usize
    requires { at + 20 ≤ length out.old }
    ensures behind { Behind at (digits n) out.old out.new result }
    ensures upper_bound { result ≤ at + 20 }
{
    at + decimal::put(n, &mut out[at..])
}

// The line of a book that is accepted, at the start of an output that has room for it: its length.
fn accepted(units: u64, calls: u64, out: &mut [u8; 64]) -> usize
    ensures { AtStart (answer_line (accepted units calls)) out.old out.new result }
{
    let a = put_text(b"ok units=", out, 0);
    let b = put_number(units, out, a);
    let c = put_text(b" calls=", out, b);
    let d = put_number(calls, out, c);
    put_text(b"\n", out, d)
}

// The line of a refusal.
fn refused(why: Refusal, out: &mut [u8; 64]) -> usize
    ensures { AtStart (answer_line (Err why)) out.old out.new result }
{
    let a = put_text(b"refused ", out, 0);
    let b = put_number(why.number() as u64, out, a);
    put_text(b"\n", out, b)
}

// The line of either answer.
fn answer_line(answer: Result<Totals, Refusal>, out: &mut [u8; 64]) -> usize
    ensures { AtStart (answer_line answer) out.old out.new result }
{
    match answer {
        Err(why) => refused(why, out),
        Ok(totals) => accepted(totals.units, totals.calls, out),
    }
}

// The answer of check for a key and the book behind it.
fn checked(input: &[u8]) -> Result<Totals, Refusal>
    ensures { result ≡ check_answer (take 16 input.now) (drop 16 input.now) }
{
    if input.len() < 16 {
        return checker::check::check(input, b"");
    }
    checker::check::check(&input[..16], &input[16..])
}

// The line for the bytes that were read, at the start of an output: its length.
fn line(input: &[u8], out: &mut [u8; 64]) -> usize
    ensures { AtStart (line input.now) out.old out.new result }
{
    let n = input.len();
    if 65520 < n {
        return put_text(b"too long\n", out, 0);
    }
    answer_line(checked(input), out)
}

fn main(rt: HostRuntime) -> io::Result<()> {
    // 16 bytes longer than the longest key and book that are read
    let mut buf = input::buffer::<65536>();
    // a read that fails counts as the end of the input
    let (n, _) = input::read_full(&mut rt.reader(), &mut buf);
    let mut out = [0u8; 64];
    let len = line(&buf[..n], &mut out);
    rt.write_all(&out[..len])
}
