// The places of a window of memory, met one after the other: which entry is the first that shares a byte with an earlier one.
#![tactic(auto)]

ghost use Rattle.std.specs.Prelude.{◌≡◌, ◌+◌, ◌*◌, ◌≤◌, length};
ghost use Rattle.rules.specs.Bytes.{le};
ghost use Rattle.rules.specs.declared.Module.{Module};
ghost use Rattle.windows.specs.Window.{in_window, entry_in, Wide, Empty, Met, Walked};

use rules::Relocations;

// Puts a place into the map of a window, if it is there; whether it shares a byte with one that the map has.
#[tactic(auto, unfolding(crate::specs::Window::in_window))]
pub fn meet_in(map: &mut [u8], place: u64, lo: u64, size: u64) -> bool
    requires { Wide size map.old }
    ensures { Met lo (in_window lo size place) place map.old result map.new }
{
    lo <= place && place - lo < size && marks::meet(map, place - lo)
}

// The same for the entry at a position of the file, unless it is skipped.
fn meet_entry(map: &mut [u8], f: &[u8], at: usize, lo: u64, size: u64) -> bool
    requires { Wide size map.old × (at + 24 ≤ length f.now) }
    ensures { Met lo (entry_in f.now lo size at) (le 8 f.now at) map.old result map.new }
{
    reads::le32(f, at + 8) != 0 && meet_in(map, reads::le64(f, at), lo, size)
}

// The lowest of the first n entries that repeats in a window; where none does, the map has their places.
pub fn meet_entries(
    map: &mut [u8],
    f: &[u8],
    r: Relocations,
    n: u32,
    lo: u64,
    size: u64,
) -> Option<u32>
    requires { Wide size map.old × Empty map.old × (n ≤ r.entries) × (r.at + 24 * r.entries ≤ length f.now) }
    ensures { (m : Module) → m.relocations ≡ r → Walked f.now m lo size n result map.new }
{
    let mut repeat = None;
    'entries: for i in 0..n {
        let at = r.at as usize + 24 * (i as usize);
        if meet_entry(map, f, at, lo, size) {
            repeat = Some(i);
            break 'entries;
        }
    }
    repeat
}
