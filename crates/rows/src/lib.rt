// A row of a page. A function with a precondition serves our own crates, which see to it.
#![tactic(auto)]

ghost use Rattle.std.specs.Prelude.{◌≡◌, ◌≤◌, length};
ghost use Rattle.decimal.specs.Decimal.{digits};
ghost use Rattle.rows.specs.Row.{right_aligned, row_of};

// A number, right-aligned in as many columns as there is room for, which are enough.
fn column(n: u64, out: &mut [u8])
    requires { length (digits n) ≤ length out.old }
    ensures { out.new ≡ right_aligned (length out.old) n }
{
    let at = out.len() - decimal::count(n);
    out[..at].fill(b' ');
    decimal::put(n, &mut out[at..]);
}

// The row of a source of `len` bytes, at most 4,096, with this score, at most 1,000, in room of 12 bytes.
pub fn put(len: usize, score: u32, out: &mut [u8])
    requires { (len ≤ 4096)
        × (score ≤ 1000)
        × (length out.old ≡ 12) }
    ensures { out.new ≡ row_of len score }
{
    column(len as u64, &mut out[..5]);
    out[5] = b' ';
    out[6] = b' ';
    column(u64::from(score), &mut out[7..11]);
    out[11] = b'\n';
}
