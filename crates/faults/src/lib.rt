// Checks 10, 11 and 13 of the items, each by itself: the entries, then the packed places.
#![tactic(auto)]

ghost use Rattle.std.specs.Prelude.{◌≡◌, ◌≤◌, ◌<◌};
ghost use Rattle.rules.specs.Relocations.{items, position_at};
ghost use Rattle.places.specs.Ahead.{Here};
ghost use Rattle.tallies.specs.Tallies.{Tallied};
ghost use Rattle.entry_faults.specs.Seen.{Ready, Sees, SeesFrom};

use entry_faults::Seen;
use parts::NO_PART;
use places::{Run, START};
use rules::Module;
use segments::NO_SPAN;
use tallies::Tally;

// The position of a packed place: that of the word read last.
fn packed_position(f: &[u8], m: Module, c: Run, i: u32) -> u64
    requires { Here f.now m c i × (m.relocations.entries ≤ i) }
    ensures reported { result ≡ position_at f.now m i }
    ensures small { result < 8589934592 }
{
    let entries = m.relocations.entries;
    entries as u64 + (c.words - 1) as u64
}

// The packed places, behind entries without a fault.
fn see_places(f: &[u8], m: Module, bias: u64, entries: Tally) -> Seen
    requires { Ready f.now m × Tallied f.now m bias m.relocations.entries entries }
    ensures { SeesFrom f.now m bias m.relocations.entries result }
{
    let n = m.relocations.entries + m.packed.places;
    let h = m.headers;
    let mut t = entries;
    let mut span = NO_SPAN;
    let mut part = NO_PART;
    let mut run = START;
    for i in m.relocations.entries..n {
        run = places::next_place(f, m.packed, run);
        let position = packed_position(f, m, run, i);
        if clear::is_clear_place(f, h, bias, part, run.place) {
            t = tallies::tally_clear(t, run.place);
        } else {
            match judging::judge_packed(f, m, bias, span, run.place) {
                Ok(word) => {
                    t = tallies::tally_word(t, word, position);
                    span = word.span;
                }
                Err(reason) => {
                    return Seen {
                        item: i,
                        fault: Some(reason.at(position)),
                        tally: t,
                    };
                }
            }
            part = parts::find_part(f, h, true, run.place, 8).unwrap_or(NO_PART);
        }
    }
    Seen {
        item: n,
        fault: None,
        tally: t,
    }
}

// All items: the entries, then the packed places.
pub fn find_faults(f: &[u8], m: Module, bias: u64) -> Seen
    requires { Ready f.now m }
    ensures { Sees f.now m bias (items m) result }
{
    let seen = entry_faults::see_entries(f, m, bias);
    if seen.fault.is_some() {
        return seen;
    }
    see_places(f, m, bias, seen.tally)
}
