// Trigrams counted, each at its node: for our own crates, which say how many nodes there is room for.
#![tactic(auto)]

ghost use Rattle.std.specs.Prelude.{◌≡◌, ℕ, ◌+◌, ◌-◌, ◌^◌, ◌<◌, ◌≤◌, List, length, get_or, take};
ghost use Rattle.trigrams.specs.Trigrams.{trigrams, shared};
ghost use Rattle.trigrams.specs.Taken.{taken};
ghost use Rattle.tally.specs.Tally.{chain, Down};
ghost use Rattle.tally.specs.Search.{Found};

// A node for each trigram that differs: `head` has a chain for each hash, `next` the chains, `keys` the nodes' trigrams. Node 0 is none:
// keys[0] is written before a search, so that it ends there. The nodes from `used` on are free.
#[derive(Drop)]
struct Nodes<const N: usize> {
    head: [u16; 2048],
    next: [u16; N],
    keys: [u32; N],
    used: usize,
    ghost heads: { (h : ℕ) → get_or head h 0 < used },
    ghost down: { Down next },
    ghost some: { 0 < used },
    ghost room: { used ≤ N },
    ghost few: { N ≤ 4096 },
}

// How often each trigram is counted, at its node; one that has no node is counted 0 times.
#[derive(Drop)]
pub struct Tally<const N: usize> {
    nodes: Nodes<N>,
    counts: [u16; N],
    ghost none: { get_or counts 0 0 ≡ 0 },
}

// The chain of a trigram.
#[tactic(auto, unfolding(crate::specs::Tally::chain))]
fn chain_of(v: usize) -> usize
    requires { v < 2 ^ 24 }
    ensures is { result ≡ chain v }
    ensures small { result < 2048 }
{
    v * 2654435761 / 2097152 % 2048
}

// The node of v on the chain from a node on, or 0; v is keys[0], so that the search ends there. A while loop: which node is next, the node
// before it says.
fn search(keys: &[u32], next: &[u16], v: usize, from: usize) -> usize
    requires ends { get_or keys.now 0 0 ≡ v }
    requires down { Down next.now }
    requires within { from < length next.now }
    requires long { length keys.now ≡ length next.now }
    ensures { Found keys.now next.now v from result }
{
    let mut k = from;
    while keys[k] as usize != v {
        k = usize::from(next[k]);
    }
    k
}

impl<const N: usize> Nodes<N> {
    ghost use Rattle.tally.specs.Code.{node_in, counted, Searched, Took, Pushed};

    // The node of v, or 0.
    fn find(&mut self, v: usize) -> usize
        requires { v < 2 ^ 24 }
        ensures is { result ≡ node_in self.old v }
        ensures within { result < self.old.used }
        ensures left { Searched self.old self.new }
    {
        self.keys[0] = v as u32;
        let from = usize::from(self.head[chain_of(v)]);
        search(&self.keys, &self.next, v, from)
    }

    // Makes a node for v, which has none.
    fn push(&mut self, v: usize)
        requires small { v < 2 ^ 24 }
        requires room { self.old.used < N }
        ensures { Pushed self.old self.new v }
    {
        let h = chain_of(v);
        self.next[self.used] = self.head[h];
        self.keys[self.used] = v as u32;
        self.head[h] = self.used as u16;
        self.used += 1;
    }

    // Takes one v away where one is left, and says how many it took.
    fn take_one(&mut self, v: usize, counts: &mut [u16]) -> usize
        requires small { v < 2 ^ 24 }
        requires none { get_or counts.old 0 0 ≡ 0 }
        requires long { length counts.old ≡ N }
        ensures { Took self.old self.new counts.old counts.new v result }
    {
        let k = self.find(v);
        let d = counts[k].min(1);
        counts[k] -= d;
        usize::from(d)
    }

    // How many trigrams of t are left in the counts; each takes one away.
    fn take_all(&mut self, t: &[u8], counts: &mut [u16]) -> usize
        requires none { get_or counts.old 0 0 ≡ 0 }
        requires long { length counts.old ≡ N }
        ensures is { result ≡ taken (counted self.old counts.old) (trigrams t.now) }
        ensures left { Searched self.old self.new }
        ensures none { get_or counts.new 0 0 ≡ 0 }
    {
        let mut c = 0;
        for j in 0..trigrams::number_in(t.len()) {
            c += self.take_one(trigrams::at(t, j), counts);
        }
        c
    }
}

impl<const N: usize> Tally<N> {
    ghost use Rattle.tally.specs.Code.{Empty, Counts, Searched};

    // Nothing is counted.
    pub fn new() -> Self
        requires some { 0 < N }
        requires few { N ≤ 4096 }
        ensures { Empty result }
    {
        Tally {
            nodes: Nodes {
                head: [0; 2048],
                next: [0; N],
                keys: [0; N],
                used: 1,
            },
            counts: [0; N],
        }
    }

    // Nothing is counted any more.
    pub fn clear(&mut self)
        ensures { Empty self.new }
    {
        self.nodes.head.fill(0);
        self.nodes.used = 1;
    }

    // Counts the trigram of s from place i on, where those before it are counted.
    fn add(&mut self, s: &[u8], i: usize)
        requires counts { Counts (take i (trigrams s.now)) self.old }
        requires used { self.old.nodes.used ≤ i + 1 }
        requires there { i + 2 < length s.now }
        requires room { length s.now - 2 < N }
        ensures counts { Counts (take (i + 1) (trigrams s.now)) self.new }
        ensures used { self.new.nodes.used ≤ i + 2 }
    {
        let v = trigrams::at(s, i);
        let k = self.nodes.find(v);
        if k == 0 {
            self.counts[self.nodes.used] = 1;
            self.nodes.push(v);
        } else {
            self.counts[k] += 1;
        }
    }

    // Counts the trigrams of s, where nothing is counted.
    pub fn fill(&mut self, s: &[u8])
        requires empty { Empty self.old }
        requires room { length s.now - 2 < N }
        ensures { Counts (trigrams s.now) self.new }
    {
        for i in 0..trigrams::number_in(s.len()) {
            self.add(s, i);
        }
    }

    // How many trigrams of t are shared with those that are counted; each takes one away, and the nodes stay.
    pub fn take_all(&mut self, t: &[u8]) -> usize
        ensures is { (x : List ℕ) → Counts x self.old → result ≡ shared x (trigrams t.now) }
        ensures nodes { Searched self.old.nodes self.new.nodes }
    {
        self.nodes.take_all(t, &mut self.counts)
    }

    // The same, in a copy of the counts, which stay. The copy is made by a loop, as in `blockwise::copy`.
    pub fn compare(&mut self, t: &[u8], left: &mut [u16; N]) -> usize
        ensures is { (x : List ℕ) → Counts x self.old → result ≡ shared x (trigrams t.now) }
        ensures stay { (x : List ℕ) → Counts x self.old → Counts x self.new }
    {
        for i in 0..self.nodes.used {
            left[i] = self.counts[i];
        }
        self.nodes.take_all(t, left)
    }
}
