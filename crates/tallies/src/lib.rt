// What is found of the items that were seen: how many words they relocate, the first address out of range, the bounds of their places.
#![tactic(auto)]

ghost use Rattle.std.specs.Prelude.{◌≡◌, true, false, ℕ, ◌+◌, ◌≤◌, ◌<◌, leb};
ghost use Rattle.tallies.specs.Tallies.{mark_after, Rises, Tallies};

use judging::Word;

// What is found of the items so far.
#[derive(Clone, Copy)]
pub struct Tally {
    // How many words they relocate.
    pub words: u32,
    // The position of the first address out of range.
    pub outside: Option<u64>,
    // The bounds of their places.
    pub low: u64,
    pub top: u64,
    // There are places, and each is known to be eight bytes or more above those before it.
    pub rising: bool,
}

// Of none: the bounds are crossed.
pub const NOTHING: Tally = Tally {
    words: 0,
    outside: None,
    low: u64::MAX,
    top: 0,
    rising: false,
};

// The position of the first address out of range, once this item is seen.
#[tactic(auto, unfolding(crate::specs::Tallies::mark_after))]
fn mark_after(mark: Option<u64>, outside: bool, position: u64) -> Option<u64>
    ensures { result ≡ mark_after mark outside position }
{
    if mark.is_none() && outside {
        Some(position)
    } else {
        mark
    }
}

// A place is eight bytes or more above the highest so far.
fn is_above(top: u64, place: u64) -> bool
    ensures { result ≡ leb (top + 8) place }
{
    top <= place && 8 <= place - top
}

// The places rise with one more. Where there is none yet the bounds are crossed.
fn is_rising(t: Tally, place: u64) -> bool
    ensures { result ≡ true → Rises t place }
{
    t.top < t.low || (t.rising && is_above(t.top, place))
}

// The tally with the word of one item more.
pub fn tally_word(t: Tally, word: Word, position: u64) -> Tally
    requires { t.words < 4294967295 }
    ensures { Tallies t word.place word.outside position result }
{
    let place = word.place;
    Tally {
        words: t.words + 1,
        outside: mark_after(t.outside, word.outside, position),
        low: place.min(t.low),
        top: place.max(t.top),
        rising: is_rising(t, place),
    }
}

// The same for an address in range. Where the places rise, the lowest stays and this is the highest.
#[tactic(auto, unfolding(crate::specs::Tallies::mark_after))]
pub fn tally_clear(t: Tally, place: u64) -> Tally
    requires { (t.words < 4294967295) × (t.rising ≡ true → t.low ≤ t.top) }
    ensures { (position : ℕ) → Tallies t place false position result }
{
    let words = t.words + 1;
    if t.rising && is_above(t.top, place) {
        return Tally {
            words,
            top: place,
            ..t
        };
    }
    Tally {
        words,
        low: place.min(t.low),
        top: place.max(t.top),
        rising: false,
        ..t
    }
}
