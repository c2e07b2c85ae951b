// The lowest item whose place shares a byte with an earlier one's: the places are put into a map one after the other.
#![tactic(auto)]

ghost use Rattle.std.specs.Prelude.{◌≡◌, true, ◌+◌, ◌-◌, ◌*◌, ◌^◌, ◌≤◌, ◌<◌, length};
ghost use Rattle.rules.specs.Limits.{memory_limit};
ghost use Rattle.rules.specs.Packed.{packed_before};
ghost use Rattle.rules.specs.Relocations.{items};
ghost use Rattle.items.specs.Table.{Inside, Bounded, Rising};
ghost use Rattle.apart.specs.Apart.{Walkable};
ghost use Rattle.windows.specs.Window.{Wide, Empty};
ghost use Rattle.repeats.specs.Repeats.{Lowers};
ghost use Rattle.repeats.specs.Search.{Passed, Finds, Behind, Searched};

use places::START;
use rules::Module;

// An item that repeats, and the position at which it is reported.
#[derive(Clone, Copy)]
pub struct Lowest {
    pub item: u32,
    pub position: u64,
}

// Large windows start so many bytes apart; a small one is where no more are left.
const LARGE: u64 = 1048576;

const SMALL: u64 = 65536;

// Their windows. Each goes on by 8 bytes, so that two places that share a byte are both in the one in which the lower starts.
const LARGE_WINDOW: u64 = LARGE + 8;

const SMALL_WINDOW: u64 = SMALL + 8;

// Bytes of their maps: a code for each word of the window, for the word before it and for the one behind.
const LARGE_MAP: usize = 65538;

const SMALL_MAP: usize = 4098;

// The lowest of the first n items that repeats in a window, where no entry among them does and the map has the entries' places.
fn meet_packed(map: &mut [u8], f: &[u8], m: Module, n: u32, lo: u64, size: u64) -> Option<Lowest>
    requires { Wide size map.old × Walkable f.now m n × Passed f.now m lo size n map.old }
    ensures { Finds f.now m lo size n result }
{
    let entries = m.relocations.entries;
    let mut run = START;
    for i in entries..n {
        run = places::next_place(f, m.packed, run);
        if windows::meet_in(map, run.place, lo, size) {
            return Some(Lowest {
                item: i,
                position: entries as u64 + (run.words - 1) as u64,
            });
        }
    }
    None
}

// The lowest of the first n items that repeats in a window, with a map that has no place.
fn meet_items(map: &mut [u8], f: &[u8], m: Module, n: u32, lo: u64, size: u64) -> Option<Lowest>
    requires { Wide size map.old × Empty map.old × Walkable f.now m n }
    ensures { Finds f.now m lo size n result }
{
    let r = m.relocations;
    let k = n.min(r.entries);
    if let Some(i) = windows::meet_entries(map, f, r, k, lo, size) {
        return Some(Lowest {
            item: i,
            position: i as u64,
        });
    }
    meet_packed(map, f, m, n, lo, size)
}

// The same with a map of its own. It is not inlined, so that a map is in no frame but its own.
#[inline(never)]
fn find_in<const MAP: usize>(f: &[u8], m: Module, n: u32, lo: u64, size: u64) -> Option<Lowest>
    requires { Walkable f.now m n × (size + 23 ≤ 16 * MAP) × (MAP < 2 ^ 63) }
    ensures { Finds f.now m lo size n result }
{
    let mut map = [0u8; MAP];
    meet_items(&mut map, f, m, n, lo, size)
}

// In windows one after the other from low to top, each below the lowest found before it; the last is small if it may be.
fn find_windows(f: &[u8], m: Module, n: u32, low: u64, top: u64) -> Option<Lowest>
    requires { Walkable f.now m n × (low ≤ top) × (top ≤ memory_limit) }
    ensures { Behind f.now m n low → Searched f.now m n (top + 1) result }
{
    let mut found: Option<Lowest> = None;
    for k in 0..(top - low) / LARGE + 1 {
        let lo = low + LARGE * k;
        let end = found.map_or(n, |v| v.item);
        let here = if top - lo < SMALL {
            find_in::<SMALL_MAP>(f, m, end, lo, SMALL_WINDOW)
        } else {
            find_in::<LARGE_MAP>(f, m, end, lo, LARGE_WINDOW)
        };
        found = here.or(found);
    }
    found
}

// From low to top: where the bytes before a place begin at which one that shares a byte with it may start.
fn around(place: u64, low: u64, top: u64) -> u64
    requires { (low ≤ top) × (top ≤ memory_limit) }
    ensures { (low ≤ result) × (result ≤ top) }
{
    place.saturating_sub(8).clamp(low, top)
}

// The lowest of the first n items whose place shares a byte with an earlier one's. The places are from low to top; where they are known to
// rise, none is met twice and no map is needed. The items that are told apart are passed over: the next one repeats if it does so around its
// place, and else all windows are searched.
pub fn find_repeat(f: &[u8], m: Module, n: u32, low: u64, top: u64, rising: bool) -> Option<Lowest>
    requires { Inside f.now m × (n ≤ items m) × (m.packed.places ≡ length (packed_before f.now m.packed.at m.packed.words))
        × Bounded f.now m n low top × (top ≤ memory_limit) × (rising ≡ true → Rising f.now m n) }
    ensures { Lowers f.now m n result }
{
    if rising || top < low {
        return None;
    }
    let told = apart::tell_apart(f, m, n, low, top)?;
    let at = around(told.place, low, top);
    if let Some(v) = find_in::<SMALL_MAP>(f, m, told.item + 1, at, SMALL_WINDOW) {
        return Some(v);
    }
    find_windows(f, m, n, low, top)
}
