// The lines of a file and their fields. Fields have a blank between them.
ghost use Rattle.std.specs.Prelude.{◌<◌, ◌≤◌, length};
ghost use Rattle.std.specs.Counts.{IsPrefixLen};
ghost use Rattle.std.specs.Iterator.{at_most};

use suites::suite::Suite;

// The value of a digit, and 0 of what is none.
fn digit(c: u8) -> u8
    ensures { result < 16 }
{
    match c {
        b'0'..=b'9' => c - b'0',
        b'A'..=b'F' => c - b'A' + 10,
        _ => 0,
    }
}

// What stands behind the first `stop`, or nothing.
fn behind(s: &[u8], stop: u8) -> &[u8]
    ensures { 0 < length s.now → length result.now < length s.now }
{
    for (i, b) in s.iter().enumerate() {
        if *b == stop {
            return &s[i + 1..];
        }
    }
    &[]
}

// A file from a field on.
#[derive(Clone, Copy)]
pub struct Fields<'a> {
    rest: &'a [u8],
}

impl<'a> Fields<'a> {
    pub fn is_comment(&self) -> bool {
        self.get(0) == b'#'
    }

    fn get(&self, i: usize) -> u8 {
        self.rest.get(i).copied().unwrap_or(0)
    }

    // The byte that two hexadecimal digits say.
    fn byte(&self, i: usize) -> u8
        requires { i < 65536 }
    {
        digit(self.get(i)) * 16 + digit(self.get(i + 1))
    }

    // To the next field.
    fn skip(&mut self) {
        self.rest = behind(self.rest, b' ');
    }

    // The bytes of the field, put at the buffer's start, as far as it goes: how many. A field ends before the first byte that is below
    // the digits: a blank, a line feed, or the `-` that stands for no bytes.
    fn decode(&self, out: &mut [u8]) -> usize
        requires { length out.old ≤ 16384 }
        ensures { IsPrefixLen result out.new }
    {
        let n = out.len();
        for i in 0..n {
            if self.get(2 * i) < b'0' {
                return i;
            }
            out[i] = self.byte(2 * i);
        }
        n
    }

    // The bytes of the field, put in a buffer.
    pub fn bytes<'b>(&mut self, out: &'b mut [u8]) -> &'b [u8]
        requires { length out.old ≤ 16384 }
    {
        let n = self.decode(out);
        self.skip();
        &out[..n]
    }

    pub fn block(&mut self) -> [u8; 16] {
        let mut b = [0u8; 16];
        self.bytes(&mut b);
        b
    }

    pub fn suite(&mut self) -> Suite {
        let suite = Suite {
            cipher: self.byte(0),
            steps: self.byte(2),
        };
        self.skip();
        suite
    }

    // The number that so many decimal digits say, or as many as there are; at most the largest of 64 bits.
    fn decimal(&mut self, digits: usize) -> u64 {
        let mut n: u64 = 0;
        for i in 0..digits {
            let c = self.get(i);
            if c < b'0' {
                break;
            }
            n = n.saturating_mul(10).saturating_add(u64::from(digit(c)));
        }
        self.skip();
        n
    }

    pub fn number(&mut self) -> u64 {
        self.decimal(20)
    }

    // A number of at most eight digits, or the most that it may be.
    pub fn number_to(&mut self, most: usize) -> usize
        ensures { result ≤ most }
    {
        most.min(self.decimal(8) as usize)
    }
}

// The lines of a file, each as the file from there on.
#[derive(Drop)]
pub struct Lines<'a> {
    rest: &'a [u8],
}

impl<'a> Lines<'a> {
    pub fn of(file: &'a [u8]) -> Lines<'a> {
        Lines { rest: file }
    }
}

impl<'a> Iterator for Lines<'a> {
    type Item = Fields<'a>;

    ghost remaining = { λ s. at_most (length s.rest.now) };

    fn next(&mut self) -> Option<Fields<'a>> {
        if self.rest.is_empty() {
            return None;
        }
        let rest = self.rest;
        self.rest = behind(rest, b'\n');
        Some(Fields { rest })
    }
}
