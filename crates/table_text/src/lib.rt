// A table as text: 16 lines of 16 entries in hexadecimal.
#![tactic(auto)]

ghost use Rattle.std.specs.Prelude.{◌≡◌, ◌/◌, ◌%◌};
ghost use Rattle.table_text.specs.Text.{hex_digit, table_text};
ghost use Rattle.table_text.specs.Code.{behind};

// The low digit of a byte in hexadecimal, in capitals.
fn digit(d: u8) -> u8
    ensures { result ≡ hex_digit (d % 16) }
{
    let n = d % 16;
    if n < 10 { b'0' + n } else { b'A' + (n - 10) }
}

// The high digit.
fn high(b: u8) -> u8
    ensures { result ≡ hex_digit (b / 16) }
{
    digit(b / 16)
}

// What stands behind entry i: a line feed behind the last of a line, else a blank.
fn end(i: usize) -> u8
    ensures { result ≡ behind i }
{
    if i % 16 == 15 { b'\n' } else { b' ' }
}

// The text of a table.
pub fn put(table: &[u8; 256], out: &mut [u8; 768])
    ensures { out.new ≡ table_text table.now }
{
    for (i, b) in table.iter().enumerate() {
        out[3 * i] = high(*b);
        out[3 * i + 1] = digit(*b);
        out[3 * i + 2] = end(i);
    }
}
