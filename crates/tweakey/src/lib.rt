// The tweakeys. There are three for a key and a tweak under Scream, two under iScream.
#![tactic(auto)]

ghost use Rattle.std.specs.Prelude.{◌≡◌};
ghost use Rattle.tweakey.specs.Schedule.{Scheduled, held, state_at};
ghost use Rattle.state.specs.State.{rows_of};
ghost use Rattle.rounds.specs.Tweakey.{φ, rotated, rotated_row};

use rounds::Cipher;
use state::State;

// The tweakeys of the steps σ, by σ mod 3 or σ mod 2.
#[derive(Clone, Copy)]
pub struct Schedule {
    pub first: State,
    pub second: State,
    pub third: State,
}

fn phi(t: State) -> State
    ensures { rows_of result ≡ φ (rows_of t) }
{
    State {
        low: t.low ^ t.high,
        high: t.low,
    }
}

fn rotate(x: u16) -> u16
    ensures { result ≡ rotated_row x }
{
    x % 32768 * 2 + x / 32768
}

fn rotate_rows(w: [u16; 8]) -> [u16; 8]
    ensures { result ≡ rotated w }
{
    [
        rotate(w[0]),
        rotate(w[1]),
        rotate(w[2]),
        rotate(w[3]),
        rotate(w[4]),
        rotate(w[5]),
        rotate(w[6]),
        rotate(w[7]),
    ]
}

fn rotate_state(t: State) -> State
    ensures { rows_of result ≡ rotated (rows_of t) }
{
    state::state_of(rotate_rows(state::rows_of(t)))
}

// The schedule of a key and a tweak.
pub fn schedule_of(k: Cipher, key: State, tweak: State) -> Schedule
    ensures { Scheduled k (rows_of key) (rows_of tweak) result }
{
    let first = state::add(key, tweak);
    match k {
        Cipher::Scream => {
            let t = phi(tweak);
            Schedule {
                first,
                second: state::add(key, t),
                third: state::add(key, phi(t)),
            }
        }
        Cipher::IScream => Schedule {
            first,
            second: rotate_state(tweak),
            third: first,
        },
    }
}

fn pick(h: Schedule, n: usize) -> State
    ensures { result ≡ held h n }
{
    match n {
        0 => h.first,
        1 => h.second,
        _ => h.third,
    }
}

// What is added after step s.
pub fn tweakey(k: Cipher, h: Schedule, s: usize) -> State
    ensures { result ≡ state_at k h s }
{
    match k {
        Cipher::Scream => pick(h, s % 3),
        Cipher::IScream => pick(h, s % 2),
    }
}
