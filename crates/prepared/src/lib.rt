// The scores of many sources against one typed sentence, whose trigrams are counted once; for our own crates, which lend the room. A sentence
// longer than any segment may be is not counted once: there the source's trigrams are counted, in the same room.
#![tactic(auto)]

ghost use Rattle.std.specs.Prelude.{◌≡◌, ◌≤◌, [], length};
ghost use Rattle.trigrams.specs.Trigrams.{trigrams};
ghost use Rattle.tally.specs.Code.{Counts};
ghost use Rattle.score.specs.Score.{score};

use tally::Tally;

// A typed sentence, its trigrams' counts, unless it is too long, and room for what is left of them in a comparison.
#[derive(Drop)]
pub struct Prepared<'a> {
    typed: &'a [u8],
    tally: Tally<4096>,
    left: [u16; 4096],
    ghost counted: { length typed.now ≤ 4096 → Counts (trigrams typed.now) tally },
}

impl<'a> Prepared<'a> {
    // Room, in which no sentence is prepared yet but the empty one.
    pub fn new() -> Self
        ensures { result.typed.now ≡ [] }
    {
        Prepared {
            typed: &[],
            tally: Tally::new(),
            left: [0; 4096],
        }
    }

    // Counts the typed sentence's trigrams, unless it is too long.
    pub fn prepare(&mut self, typed: &'a [u8])
        ensures { self.new.typed.now ≡ typed.now }
    {
        if typed.len() <= 4096 {
            self.tally.clear();
            self.tally.fill(typed);
        }
        self.typed = typed;
    }

    // The score of a source of at most 4,096 bytes against the typed sentence, which stays prepared.
    pub fn score(&mut self, source: &[u8]) -> u32
        requires { length source.now ≤ 4096 }
        ensures is { result ≡ score source.now self.old.typed.now }
        ensures most { result ≤ 1000 }
        ensures stays { self.new.typed.now ≡ self.old.typed.now }
    {
        if self.typed.len() <= 4096 {
            let c = self.tally.compare(source, &mut self.left);
            return score::score_by(c, source, self.typed);
        }
        self.tally.clear();
        self.tally.fill(source);
        let c = self.tally.take_all(self.typed);
        score::score_by(c, source, self.typed)
    }
}
