// Checks 10, 11 and 13 of the entries of the RELA table, each by itself: the lowest with a fault of its own, and what is found of those
// before it.
#![tactic(auto)]

ghost use Rattle.std.specs.Prelude.{◌≡◌, true, ◌≤◌, ◌<◌, IfSome, IfNone};
ghost use Rattle.rules.specs.Relocations.{place_at};
ghost use Rattle.items.specs.Table.{Inside};
ghost use Rattle.segments.specs.Spans.{Sound};
ghost use Rattle.clear.specs.Clear.{Nears};
ghost use Rattle.tallies.specs.Tallies.{Tallies};
ghost use Rattle.entry_faults.specs.Seen.{Ready, Seeing, Sees};

use clear::{FAR, Near};
use items::ENTRY_BYTES;
use judging::Word;
use rules::{Module, Refusal};
use segments::{NO_SPAN, Span};
use tallies::{NOTHING, Tally};

// How far the items are passed over, and what is found of them.
#[derive(Clone, Copy)]
pub struct Passed {
    pub item: u32,
    pub tally: Tally,
}

// How far the items have no fault of their own, and what is found of those before.
#[derive(Clone, Copy)]
pub struct Seen {
    // The lowest item with a fault, or how many items there are.
    pub item: u32,
    // Its refusal, 10 or 11.
    pub fault: Option<Refusal>,
    pub tally: Tally,
}

// The place of an entry inside the file.
fn entry_place(f: &[u8], m: Module, i: u32) -> u64
    requires { Inside f.now m × (i < m.relocations.entries) }
    ensures { result ≡ place_at f.now m i }
{
    reads::le64(f, m.relocations.at as usize + ENTRY_BYTES * (i as usize))
}

// Passes over the entries in which nothing is wrong, as few tests tell it; stops at another, or at the end; of a far bias it tells none. No
// search is made here, so that what it keeps stays in registers.
fn pass_entries(
    f: &[u8],
    m: Module,
    bias: u64,
    near: Near,
    last: Span,
    from: u32,
    seen: Tally,
) -> Passed
    requires { Ready f.now m × Nears f.now m near × Sound f.now m.headers true last × Seeing f.now m bias 0 m.relocations.entries seen from }
    ensures onward { from ≤ result.item }
    ensures seen { Seeing f.now m bias 0 m.relocations.entries result.tally result.item }
{
    if FAR <= bias {
        return Passed {
            item: from,
            tally: seen,
        };
    }
    let n = m.relocations.entries;
    let mut t = seen;
    for i in from..n {
        if !clear::is_clear_entry(f, m, bias, near, last, i) {
            return Passed { item: i, tally: t };
        }
        t = tallies::tally_clear(t, entry_place(f, m, i));
    }
    Passed { item: n, tally: t }
}

// What is seen with one entry more, and the PT_LOAD found last: a skipped entry has no word.
fn seen_after(t: Tally, last: Span, word: Option<Word>, position: u64) -> (Tally, Span)
    requires { t.words < 4294967295 }
    ensures kept { IfSome word (λ w. Tallies t w.place w.outside position result.0 × (result.1 ≡ w.span)) }
    ensures skipped { IfNone word ((result.0 ≡ t) × (result.1 ≡ last)) }
{
    match word {
        Some(w) => (tallies::tally_word(t, w, position), w.span),
        None => (t, last),
    }
}

// The entries of the RELA table: those in which nothing is wrong are passed over, each other one is judged.
pub fn see_entries(f: &[u8], m: Module, bias: u64) -> Seen
    requires { Ready f.now m }
    ensures { Sees f.now m bias m.relocations.entries result }
{
    let n = m.relocations.entries;
    let near = clear::near_symbols(f, m);
    let mut t = NOTHING;
    let mut span = NO_SPAN;
    let mut i: u32 = 0;
    while i < n {
        let p = pass_entries(f, m, bias, near, span, i, t);
        t = p.tally;
        i = p.item;
        if i < n {
            match judging::judge_entry(f, m, bias, span, i) {
                Ok(word) => (t, span) = seen_after(t, span, word, i as u64),
                Err(reason) => {
                    return Seen {
                        item: i,
                        fault: Some(reason.at(i as u64)),
                        tally: t,
                    };
                }
            }
            i += 1;
        }
    }
    Seen {
        item: i,
        fault: None,
        tally: t,
    }
}
