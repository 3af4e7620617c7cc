// Numbers of bytes.
ghost use Rattle.std.specs.Prelude.{◌≡◌, min};

// The lesser of two.
pub fn lesser(a: usize, b: usize) -> usize
    ensures { result ≡ min a b }
{
    a.min(b)
}
