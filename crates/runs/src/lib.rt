// Runs of steps: what enciphering, deciphering and a single step have in common, one block after the other.
#![tactic(auto)]

ghost use Rattle.std.specs.Prelude.{cond, true, false, ◌≡◌, ◌+◌, ◌≤◌, leb, length};
ghost use Rattle.blockwise.specs.Blocks.{each_block};
ghost use Rattle.runs.specs.Run.{block_by, one_at, each_up_to14};
ghost use Rattle.state.specs.Rows.{add_rows};
ghost use Rattle.state.specs.State.{rows_of};

use rounds::Cipher;
use state::State;
use steps::{Ahead, Back, Way};
use tables::Joined;

// The steps that a block takes: so many, where others are done before them, and whether TK(0) is added: first where it goes ahead, last where it
// goes back. No suite has more than 14.
#[derive(Clone, Copy)]
pub struct StepRun {
    pub done: usize,
    pub steps: usize,
    pub wanted: bool,
    ghost few: { done + steps ≤ 14 },
}

// `wanted` and `ahead` stay bools: they are the Bools of the definitions of a run, `block_by` and the two under it, and an enum would only be turned
// into them at each call.

// Whether n steps after s others are no more than 14.
fn fits_table(s: usize, n: usize) -> bool
    ensures { result ≡ leb (s + n) 14 }
{
    n <= 14 && s <= 14 - n
}

// With the tweakey added, or as it is.
fn added(wanted: bool, x: State, t: State) -> State
    ensures { rows_of result ≡ cond wanted (add_rows (rows_of x) (rows_of t)) (rows_of x) }
{
    if wanted { state::add(x, t) } else { x }
}

// A block through these steps.
fn block<W: Way>(way: &W, r: StepRun, key: [u8; 16], tweak: [u8; 16], b: [u8; 16]) -> [u8; 16]
    ensures { result ≡ block_by W.ahead (W.cipher way.now) r.done r.steps r.wanted key tweak b }
{
    let k = way.cipher();
    let h = tweakey::schedule_of(k, state::load(key), state::load(tweak));
    let first = tweakey::tweakey(k, h, 0);
    let x = state::load(b);
    if W::is_ahead() {
        let y = steps::steps(way, r.done, r.steps, h, added(r.wanted, x, first));
        return state::store(y);
    }
    let y = steps::steps(way, r.done, r.steps, h, x);
    state::store(added(r.wanted, y, first))
}

// The block at a place, under the tweak at that place.
fn one<W: Way>(way: &W, r: StepRun, key: [u8; 16], tweaks: &[u8], blocks: &mut [u8], at: usize)
    requires { (at + 16 ≤ length tweaks.now)
        × (at + 16 ≤ length blocks.old) }
    ensures { blocks.new
        ≡ one_at (block_by W.ahead (W.cipher way.now) r.done r.steps r.wanted key) at tweaks.now blocks.old }
{
    let tweak = blockwise::block_at(tweaks, at);
    let b = blockwise::block_at(blocks, at);
    let c = block(way, r, key, tweak, b);
    blockwise::put_at(blocks, at, c);
}

// Every whole block that both slices have.
pub fn all<W: Way>(way: &W, r: StepRun, key: [u8; 16], tweaks: &[u8], blocks: &mut [u8])
    ensures { blocks.new
        ≡ each_block (block_by W.ahead (W.cipher way.now) r.done r.steps r.wanted key) tweaks.now blocks.old }
{
    let m = blockwise::whole(tweaks.len(), blocks.len());
    // An index loop: over the zipped chunks of both slices, one of them written, the proof was not found.
    for i in 0..m {
        one(way, r, key, tweaks, blocks, 16 * i);
    }
}

// Every whole block that both slices have goes n steps ahead where s are done, with look-ups, TK(0) added first if it is wanted; or back, with
// TK(0) added last. More than 14 steps, which no suite has, change nothing. The way is a type, so that it is known where the code is compiled.
pub fn run(
    ahead: bool,
    k: Cipher,
    s: usize,
    n: usize,
    wanted: bool,
    key: [u8; 16],
    tweaks: &[u8],
    blocks: &mut [u8],
)
    ensures { blocks.new ≡ each_up_to14 (s + n) (block_by ahead k s n wanted key) tweaks.now blocks.old }
{
    if !fits_table(s, n) {
        return;
    }
    let r = StepRun {
        done: s,
        steps: n,
        wanted,
    };
    let of = steps::lbox_of(ahead, k);
    let low = of.low();
    let high = of.high();
    let lbox = Joined {
        of,
        low: &low,
        high: &high,
    };
    if ahead {
        all(&Ahead { cipher: k, lbox }, r, key, tweaks, blocks);
    } else {
        all(&Back { cipher: k, lbox }, r, key, tweaks, blocks);
    }
}
