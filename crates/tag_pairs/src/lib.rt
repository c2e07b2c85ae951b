// The tags that a mask allows, and a table of which to pick from each start.
#![tactic(auto)]

ghost use Rattle.std.specs.Prelude.{◌≡◌, cond, ℕ, ◌+◌, ◌*◌, ◌≤◌, ◌<◌};
ghost use Rattle.rules.specs.Picker.{tag_count, allowed, pick_of, tags_allowed};
ghost use Rattle.tag_pairs.specs.Pairs.{Suited, Pairs};

use rules::{TAGS, UNTAGGED};

// A tag's bit in the mask is clear; bit 0 counts as set.
fn is_allowed(excluded: u16, tag: u8) -> bool
    requires { tag < tag_count }
    ensures { result ≡ allowed excluded tag }
{
    tag != UNTAGGED && (excluded >> tag) % 2 == 0
}

// How many tags are allowed: the mask's clear bits, where bit 0 counts as set.
pub fn count_allowed(excluded: u16) -> u8
    ensures { result ≡ tags_allowed excluded }
{
    (excluded | 1).count_zeros() as u8
}

// The first tag from a start on that is allowed, going up and wrapping.
fn first_allowed(excluded: u16, start: u8) -> u8
    requires { start < tag_count }
    ensures { result ≡ pick_of excluded 0 start }
{
    match (start..start + TAGS).find(|&tag| is_allowed(excluded, tag % TAGS)) {
        Some(tag) => tag % TAGS,
        None => start,
    }
}

// Two tags as one number.
fn pair(tag: u8, next: u8) -> u16
    ensures { result ≡ tag + 256 * next }
{
    tag as u16 + 256 * (next as u16)
}

// Of every start, going down: the first tag from there on that is allowed, twice, for a global that does not abut on the one before; and
// in the second row that tag with the one after it, for a global that does.
pub fn pairs_of(excluded: u16) -> [u16; 32]
    ensures { Suited excluded 0 → Pairs excluded result }
{
    let mut pairs: [u16; 32] = [0; 32];
    let mut tag = first_allowed(excluded, 0);
    let mut next = first_allowed(excluded, (tag + 1) % TAGS);
    for done in 0..TAGS {
        let start = TAGS - 1 - done;
        if is_allowed(excluded, start) {
            next = tag;
            tag = start;
        }
        pairs[start as usize] = pair(tag, tag);
        pairs[(start + TAGS) as usize] = pair(tag, next);
    }
    pairs
}

// Where the row of a global begins.
fn row_of(abutting: bool) -> usize
    ensures { (result ≡ cond abutting tag_count 0) × (result ≤ tag_count) }
{
    if abutting { TAGS as usize } else { 0 }
}

// How far the tag of a pair is to be shifted: past the first where that is barred.
fn shift_of(barred: bool) -> u16
    ensures { (result ≡ cond barred 8 0) × (result ≤ 8) }
{
    if barred { 8 } else { 0 }
}

// The tag of a global that abuts on one with the tag last, or does not.
pub fn pick(pairs: &[u16; 32], abutting: bool, last: u8, random: u8) -> u8
    ensures { (excluded : ℕ) → Pairs excluded pairs.now → Suited excluded (cond abutting last 0) → result ≡ pick_of excluded (cond abutting last 0) random }
{
    let both = pairs[row_of(abutting) + (random % TAGS) as usize];
    let shift = shift_of(both % 256 == last as u16);
    ((both >> shift) % 256) as u8
}
