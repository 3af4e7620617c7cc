// The planes of one column: plane j of each row.
ghost use Rattle.std.specs.Prelude.{◌≡◌, ◌<◌};
ghost use Rattle.planes.specs.Planes.{column_of, with_column};

// Column j, row 0 first.
pub fn column(x: &[[u64; 16]; 8], j: usize) -> [u64; 8]
    requires { j < 16 }
    ensures { result ≡ column_of x.now j }
{
    let mut y = [0; 8];
    for (i, p) in y.iter_mut().enumerate() {
        *p = x[i][j];
    }
    y
}

// Other planes in the place of column j.
pub fn put_column(x: &mut [[u64; 16]; 8], j: usize, y: [u64; 8])
    requires { j < 16 }
    ensures { x.new ≡ with_column x.old j y }
{
    for (i, r) in x.iter_mut().enumerate() {
        r[j] = y[i];
    }
}
