// Checks 10 and 11: the items in their order; and what check 13 and the facts need of them.
#![tactic(auto)]

ghost use Rattle.std.specs.Prelude.{◌≡◌};
ghost use Rattle.rules.specs.Answers.{of_result};
ghost use Rattle.entry_faults.specs.Seen.{Ready};
ghost use Rattle.relocations.specs.Walk.{walk_of};

use rules::{Module, Reason, Refusal, Walked};

// Checks 10 and 11, of the lowest item that either refuses: it has a fault of its own, or its place repeats an earlier one's. The items
// are judged one by one up to the first fault; those before it are searched for a repeat.
pub fn check_relocations(f: &[u8], m: Module, bias: u64) -> Result<Walked, Refusal>
    requires { Ready f.now m }
    ensures { of_result result ≡ walk_of f.now m bias }
{
    let seen = faults::find_faults(f, m, bias);
    let t = seen.tally;
    if let Some(repeat) = repeats::find_repeat(f, m, seen.item, t.low, t.top, t.rising) {
        return Err(Reason::Place.at(repeat.position));
    }
    if let Some(fault) = seen.fault {
        return Err(fault);
    }
    Ok(Walked {
        words: t.words,
        outside: t.outside,
    })
}
