// Numbers in decimal.
#![tactic(auto)]

ghost use Rattle.std.specs.Prelude.{◌≡◌, ◌≤◌, length};
ghost use Rattle.decimal.specs.Decimal.{last_digit, digits, digits_within, AtStart};

fn last_digit(n: u64) -> u8
    ensures { result ≡ last_digit n }
{
    48 + (n % 10) as u8
}

// How many digits a number has.
pub fn count(n: u64) -> usize
    ensures { result ≡ length (digits n) }
{
    match n.checked_ilog10() {
        Some(k) => k as usize + 1,
        None => 1,
    }
}

// The digits of a number at the start of an output that has room for them, the last one behind the others. How many there are.
fn put_all(n: u64, out: &mut [u8]) -> usize
    requires { length (digits n) ≤ length out.old }
    ensures { AtStart (digits n) out.old out.new result }
{
    if n < 10 {
        out[0] = last_digit(n);
        return 1;
    }
    let at = put_all(n / 10, out);
    out[at] = last_digit(n);
    at + 1
}

// The digits of a number at the start of an output, or nothing where they have no room. How many bytes were written.
pub fn put(n: u64, out: &mut [u8]) -> usize
    ensures { AtStart (digits_within (length out.old) n) out.old out.new result }
{
    if out.len() < count(n) {
        return 0;
    }
    put_all(n, out)
}
