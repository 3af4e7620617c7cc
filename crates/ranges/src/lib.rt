// Trigrams shared by segments of any length, in ranges: all trigrams that are the same number when divided by 4,096 are counted at once, each
// at its own place of a table, then those of the next range. It needs no room for the segments' trigrams. It takes time as the lengths together
// times the ranges in which the first segment has trigrams: some hundred in ordinary text, at most 4,096.
#![tactic(auto)]

ghost use Rattle.std.specs.Prelude.{◌≡◌, [], length};
ghost use Rattle.trigrams.specs.Trigrams.{trigrams, shared};
ghost use Rattle.trigrams.specs.Taken.{taken};
ghost use Rattle.ranges.specs.Ranges.{held, Counted, shared_in, Marked};

// Counts the trigrams of a that are in the range.
fn count_in(range: usize, a: &[u8], counts: &mut [usize])
    requires { Counted range [] counts.old }
    ensures { Counted range (trigrams a.now) counts.new }
{
    for i in 0..trigrams::number_in(a.len()) {
        let v = trigrams::at(a, i);
        if v / 4096 == range {
            counts[v % 4096] += 1;
        }
    }
}

// How many trigrams of b are in the range and counted there; each takes one away.
fn take_in(range: usize, b: &[u8], counts: &mut [usize]) -> usize
    requires { length counts.old ≡ 4096 }
    ensures { result ≡ taken (held range counts.old) (trigrams b.now) }
{
    let mut c = 0;
    for j in 0..trigrams::number_in(b.len()) {
        let v = trigrams::at(b, j);
        if v / 4096 == range {
            let n = counts[v % 4096];
            if 0 < n {
                counts[v % 4096] = n - 1;
                c += 1;
            }
        }
    }
    c
}

// How many trigrams of one range two segments share.
fn shared_in(range: usize, a: &[u8], b: &[u8]) -> usize
    ensures { result ≡ shared_in range (trigrams a.now) (trigrams b.now) }
{
    let mut counts = [0usize; 4096];
    count_in(range, a, &mut counts);
    take_in(range, b, &mut counts)
}

// Marks the ranges in which a has trigrams.
fn mark(a: &[u8], marks: &mut [bool])
    requires { length marks.old ≡ 4096 }
    ensures { Marked (trigrams a.now) marks.new }
{
    for i in 0..trigrams::number_in(a.len()) {
        marks[trigrams::at(a, i) / 4096] = true;
    }
}

// How many trigrams two segments share. It stays a function of its own, so that a caller that has shorter segments does not touch its room.
#[inline(never)]
pub fn shared(a: &[u8], b: &[u8]) -> usize
    ensures { result ≡ shared (trigrams a.now) (trigrams b.now) }
{
    let mut marks = [false; 4096];
    mark(a, &mut marks);
    let mut c = 0;
    for (range, marked) in marks.iter().enumerate() {
        if *marked {
            c += shared_in(range, a, b);
        }
    }
    c
}
