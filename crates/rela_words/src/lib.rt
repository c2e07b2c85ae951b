// The words of the entries of the RELA table, written to memory.
#![tactic(auto)]

ghost use Rattle.std.specs.Prelude.{◌≡◌, ℕ, ◌+◌, ◌-◌, ◌≤◌, length};
ghost use Rattle.rules.specs.Bytes.{le};
ghost use Rattle.rules.specs.Memory.{put_word};
ghost use Rattle.rules.specs.declared.Module.{Module};
ghost use Rattle.clear.specs.Clear.{Nears};
ghost use Rattle.rela_words.specs.Words.{target_word, loaded_for, put_entry, StandsAt, written, relocated, relocated_from, Placed};

use clear::Near;
use items::ENTRY_BYTES;
use rules::{Headers, Module, Target};

// A tag stands in bits 56 to 59 of a word.
pub const TAG_UNIT: u64 = 1 << 56;

// What a place holds, where the tag of a target's word is told by it: a place far away is not read in vain.
#[tactic(auto, unfolding(crate::specs::Words::loaded_for))]
fn loaded_for(mem: &[u8], t: Target, place: usize) -> u64
    ensures { result ≡ loaded_for t (le 8 mem.now place) }
{
    match t {
        Target::Base => reads::read64(mem, place),
        Target::Defined(_) | Target::Undefined | Target::Barred => 0,
    }
}

// The word of a target, written at a place: its address modulo 2^64, and the tag of its source over what the place holds.
#[inline]
#[tactic(auto, using(crate::proofs::Laws::put_mod, crate::proofs::Laws::source_loaded))]
pub fn put_target(plane: &[u8], bias: u64, t: Target, addend: u64, place: usize, mem: &mut [u8])
    ensures { mem.new ≡ put_word mem.old place (target_word plane.now bias mem.old t addend place) }
{
    let loaded = loaded_for(mem, t, place);
    let tag = words::source_tag(plane, bias, mem.len() as u64, t, addend, loaded);
    let bare = words::bare_word(bias, t, addend);
    let word = bare.wrapping_add(TAG_UNIT * (tag as u64));
    memory::put64(mem, place, word);
}

// The word of the entry at a position, written at its place.
fn write_word(f: &[u8], at: usize, t: Target, bias: u64, plane: &[u8], mem: &mut [u8])
    requires { at + 24 ≤ length f.now }
    ensures { mem.new ≡ put_entry f.now at t bias plane.now mem.old }
{
    let place = reads::le64(f, at) as usize;
    let addend = reads::le64(f, at + 16);
    put_target(plane, bias, t, addend, place, mem);
}

// The word of the entry at a position, unless it is skipped.
fn relocate_entry(
    f: &[u8],
    at: usize,
    h: Headers,
    symbols: Option<u64>,
    bias: u64,
    plane: &[u8],
    mem: &mut [u8],
)
    requires { at + 24 ≤ length f.now }
    ensures { (m : Module) (i : ℕ) → StandsAt m i at → m.headers ≡ h → m.symbols ≡ symbols → mem.new ≡ written f.now m bias plane.now mem.old i }
{
    let kind = reads::le32(f, at + 8);
    if kind == 0 {
        return;
    }
    let symbol = reads::le32(f, at + 12);
    let t = items::find_target(f, h, symbols, kind, symbol);
    write_word(f, at, t, bias, plane, mem);
}

// The words of the entries from an index on, up to the first whose target is not told so, or the end: which that is. No search is made here,
// so that what it keeps stays in registers.
fn relocate_run(
    f: &[u8],
    m: Module,
    bias: u64,
    plane: &[u8],
    near: Near,
    from: u32,
    mem: &mut [u8],
) -> u32
    requires { Placed f.now m × (from ≤ m.relocations.entries) × Nears f.now m near }
    ensures onward { (from ≤ result) × (result ≤ m.relocations.entries) }
    ensures written { mem.new ≡ relocated_from f.now m bias plane.now mem.old from (result - from) }
{
    for i in from..m.relocations.entries {
        let at = m.relocations.at as usize + ENTRY_BYTES * (i as usize);
        let kind = reads::le32(f, at + 8);
        if kind == 0 {
            continue;
        }
        let symbol = reads::le32(f, at + 12);
        let t = clear::near_target(f, near, kind, symbol);
        if items::is_barred(t) {
            return i;
        }
        write_word(f, at, t, bias, plane, mem);
    }
    m.relocations.entries
}

// The words of the entries not skipped, in their order. A place is read before its own write.
pub fn relocate_entries(f: &[u8], m: Module, bias: u64, plane: &[u8], mem: &mut [u8])
    requires { Placed f.now m }
    ensures { mem.new ≡ relocated f.now m bias plane.now mem.old m.relocations.entries }
{
    let n = m.relocations.entries;
    let near = clear::near_symbols(f, m);
    let mut i: u32 = 0;
    // Kept: a run goes on by several entries at a time, so this is no `for`.
    while i < n {
        i = relocate_run(f, m, bias, plane, near, i, mem);
        if i < n {
            let at = m.relocations.at as usize + ENTRY_BYTES * (i as usize);
            relocate_entry(f, at, m.headers, m.symbols, bias, plane, mem);
            i += 1;
        }
    }
}
