// The refusals of start, and of add and close of a writer of a kind, in their order. Kind, writer and room stand apart, as in the definitions
// of these tests: a struct of the three would be no plainer, since it is made for one call and taken apart in each clause.
ghost use Rattle.std.specs.Prelude.{◌≡◌, Ok};
ghost use Rattle.kinds.specs.Kind.{kind_of};
ghost use Rattle.writer_state.specs.Tests.{valid, start_outcome, writer_tests, add_tests, close_outcome};

use crate::Writer;
use kinds::Kind;
use suites::refusal::Refusal;
use suites::suite::Suite;

#[tactic(auto, unfolding(crate::specs::Tests::start_outcome))]
pub fn start_tests(suite: Suite, key: usize, room: usize) -> Result<(), Refusal>
    ensures { result ≡ start_outcome suite key room }
{
    if !suite.is_listed() {
        return Err(Refusal::SuiteNotListed);
    }
    if key != 16 {
        return Err(Refusal::KeyLength);
    }
    if room < 16 {
        return Err(Refusal::OutputTooShort);
    }
    Ok(())
}

// Whether a writer's numbers go together, with a buffer of `room` bytes.
fn is_valid(kind: Kind, w: Writer, room: usize) -> bool
    ensures { result ≡ valid (kind_of kind) w room }
{
    w.suite.is_listed()
        && 16 <= w.place
        && w.place <= room
        && w.count <= kind.unit_limit()
        && w.total <= 1024 * (w.count + 1)
}

// 9 and 10.
#[tactic(auto, unfolding(crate::specs::Tests::writer_tests))]
fn writer_tests(kind: Kind, w: Writer, room: usize) -> Result<(), Refusal>
    ensures { result ≡ writer_tests (kind_of kind) w room (Ok tt) }
{
    if !is_valid(kind, w, room) {
        return Err(Refusal::WriterInvalid);
    }
    if w.closed {
        return Err(Refusal::WriterClosed);
    }
    Ok(())
}

#[tactic(auto, using(crate::proofs::Order::after_writer), unfolding(crate::specs::Tests::add_tests))]
pub fn add_tests(
    kind: Kind,
    w: Writer,
    from: [u8; 2],
    to: [u8; 2],
    s: usize,
    t: usize,
    room: usize,
) -> Result<(), Refusal>
    ensures { result ≡ add_tests (kind_of kind) w from to s t room }
{
    writer_tests(kind, w, room)?;
    if !fields::unit::is_pair(from, to) {
        return Err(Refusal::LanguagesNotAllowed);
    }
    if !fields::unit::in_range(s, t) {
        return Err(Refusal::SegmentLength);
    }
    if w.count == kind.unit_limit() {
        return Err(Refusal::TooManyUnits);
    }
    if room - w.place < kind.unit_room(s, t) {
        return Err(Refusal::OutputTooShort);
    }
    Ok(())
}

#[tactic(auto, using(crate::proofs::Order::after_writer), unfolding(crate::specs::Tests::close_outcome))]
pub fn close_tests(kind: Kind, w: Writer, room: usize) -> Result<(), Refusal>
    ensures { result ≡ close_outcome (kind_of kind) w room }
{
    writer_tests(kind, w, room)?;
    if room - w.place < kind.close_len() {
        return Err(Refusal::OutputTooShort);
    }
    Ok(())
}
