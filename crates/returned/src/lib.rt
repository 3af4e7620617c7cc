// What the functions for C return, as a number.
#![tactic(auto)]

ghost use Rattle.std.specs.Prelude.{◌≡◌};
ghost use Rattle.returned.specs.Returned.{returned};

use suites::refusal::Refusal;

// 0 for a call that was done, else the refusal's number.
pub fn code(answer: Result<(), Refusal>) -> u32
    ensures { result ≡ returned answer }
{
    match answer {
        Ok(()) => 0,
        Err(why) => why.number(),
    }
}
