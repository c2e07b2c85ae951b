// How many items share no byte, told by a map of the words that their places fill: one pass, and a bit a word. It tells as far as the places
// are a whole number of words apart and none fills a word that an earlier one does; behind that a search has to.
#![tactic(auto)]

ghost use Rattle.std.specs.Prelude.{◌≡◌, true, None, not, ◌+◌, ◌*◌, ◌-◌, ◌≤◌, ◌<◌, eqb, length};
ghost use Rattle.rules.specs.Bytes.{le};
ghost use Rattle.items.specs.Table.{Inside, Bounded};
ghost use Rattle.apart.specs.Apart.{large_map, Met, Apart, Spread, Tells, Within, Walkable};

use items::ENTRY_BYTES;
use places::START;
use rules::Module;

// An item that is not told apart from those before it, and the place where a repeat of it is looked for. Those before it are told apart.
#[derive(Clone, Copy)]
pub struct Told {
    pub item: u32,
    pub place: u64,
}

// Bytes of the maps.
const SMALL_MAP: usize = 1024;

const MIDDLE_MAP: usize = 16384;

const LARGE_MAP: usize = 262144;

// The bytes of memory that they reach, 64 for each of their own; the largest reaches all that a module may have.
const SMALL: u64 = 64 * (SMALL_MAP as u64);

const MIDDLE: u64 = 64 * (MIDDLE_MAP as u64);

const LARGE: u64 = 64 * (LARGE_MAP as u64);

// Puts the word of a place at a distance from the lowest into the map; whether the place is not told apart from those before.
#[tactic(auto, unfolding(crate::specs::Apart::unsure))]
fn meet_place(map: &mut [u8], distance: u64) -> bool
    requires { distance < 64 * length map.old }
    ensures { Met true distance map.old result map.new }
{
    distance % 8 != 0 || bits::meet_word(map, distance / 8)
}

// The same for the entry at a position of the file, unless it is skipped.
fn meet_entry(map: &mut [u8], f: &[u8], at: usize, lo: u64) -> bool
    requires { (at + 24 ≤ length f.now) × ((le 4 f.now (at + 8) ≡ 0 → ⊥) → (lo ≤ le 8 f.now at) × (le 8 f.now at - lo < 64 * length map.old)) }
    ensures { Met (not (eqb (le 4 f.now (at + 8)) 0)) (le 8 f.now at - lo) map.old result map.new }
{
    reads::le32(f, at + 8) != 0 && meet_place(map, reads::le64(f, at) - lo)
}

// The first of n entries that is not told apart; where all are, the map has their words.
fn spread_entries(map: &mut [u8], f: &[u8], m: Module, n: u32, lo: u64) -> Option<Told>
    requires { Inside f.now m × (n ≤ m.relocations.entries) × Within f.now m lo (length map.old) n }
    ensures tells { Tells f.now m n result }
    ensures spread { result ≡ None → Spread f.now m lo n map.new }
{
    for i in 0..n {
        let at = m.relocations.at as usize + ENTRY_BYTES * (i as usize);
        if meet_entry(map, f, at, lo) {
            return Some(Told {
                item: i,
                place: reads::le64(f, at),
            });
        }
    }
    None
}

// The first of n items that is not told apart, where the entries among them are and the map has their words.
fn spread_packed(map: &mut [u8], f: &[u8], m: Module, n: u32, lo: u64) -> Option<Told>
    requires { Walkable f.now m n × Within f.now m lo (length map.old) n × (n ≤ m.relocations.entries → Apart f.now m n)
        × (m.relocations.entries ≤ n → Spread f.now m lo m.relocations.entries map.old) }
    ensures { Tells f.now m n result }
{
    let mut run = START;
    for i in m.relocations.entries..n {
        run = places::next_place(f, m.packed, run);
        if meet_place(map, run.place - lo) {
            return Some(Told {
                item: i,
                place: run.place,
            });
        }
    }
    None
}

// The first of n items that is not told apart, with a map that reaches them.
fn spread_items(map: &mut [u8], f: &[u8], m: Module, n: u32, lo: u64) -> Option<Told>
    requires { Walkable f.now m n × Within f.now m lo (length map.old) n }
    ensures { Tells f.now m n result }
{
    let k = n.min(m.relocations.entries);
    if let Some(told) = spread_entries(map, f, m, k, lo) {
        return Some(told);
    }
    spread_packed(map, f, m, n, lo)
}

// The same with a map of its own. It is not inlined, so that a map is in no frame but its own.
#[inline(never)]
fn tell_with<const MAP: usize>(f: &[u8], m: Module, n: u32, lo: u64) -> Option<Told>
    requires { Walkable f.now m n × Within f.now m lo MAP n × (MAP ≤ large_map) }
    ensures { Tells f.now m n result }
{
    let mut map = [0u8; MAP];
    spread_items(&mut map, f, m, n, lo)
}

// The first of n items, whose places are from low to top, that is not told apart: with the smallest map that reaches them. Where none does,
// it is item 0, at low.
pub fn tell_apart(f: &[u8], m: Module, n: u32, low: u64, top: u64) -> Option<Told>
    requires { Walkable f.now m n × Bounded f.now m n low top × (low ≤ top) }
    ensures { Tells f.now m n result }
{
    match top - low {
        0..SMALL => tell_with::<SMALL_MAP>(f, m, n, low),
        SMALL..MIDDLE => tell_with::<MIDDLE_MAP>(f, m, n, low),
        MIDDLE..LARGE => tell_with::<LARGE_MAP>(f, m, n, low),
        _ if n == 0 => None,
        _ => Some(Told {
            item: 0,
            place: low,
        }),
    }
}
