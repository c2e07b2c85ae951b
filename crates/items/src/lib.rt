// The entries of the RELA table: an entry's fields, and its target.
#![tactic(auto)]

ghost use Rattle.std.specs.Prelude.{◌≡◌, ◌||◌, ◌+◌, eqb};
ghost use Rattle.rules.specs.Bytes.{le};
ghost use Rattle.rules.specs.Relocations.{abs64, glob_dat, entry_at, symbol_backing, symbol_of, target_of, named_target, target, barred};

use rules::{Headers, MEMORY_LIMIT, Relocations, Symbol, Target};

const R_AARCH64_ABS64: u32 = 257;

const R_AARCH64_GLOB_DAT: u32 = 1025;

pub const R_AARCH64_RELATIVE: u32 = 1027;

pub const STT_TLS: u8 = 6;

pub const STT_GNU_IFUNC: u8 = 10;

const STB_WEAK: u8 = 2;

pub const SHN_LORESERVE: u16 = 0xff00;

pub const SYMBOL_BYTES: u64 = 24;

pub const ENTRY_BYTES: usize = 24;

// Kept: a reader for each field. An entry that is skipped or refused is judged without its other fields.

// An entry's place.
pub fn place_at(f: &[u8], r: Relocations, i: u32) -> u64
    ensures { result ≡ le 8 f.now (entry_at r i) }
{
    reads::read64(f, r.at as usize + ENTRY_BYTES * (i as usize))
}

// An entry's kind.
pub fn kind_at(f: &[u8], r: Relocations, i: u32) -> u32
    ensures { result ≡ le 4 f.now (entry_at r i + 8) }
{
    reads::read32(f, r.at as usize + ENTRY_BYTES * (i as usize) + 8)
}

// An entry's symbol.
pub fn symbol_at(f: &[u8], r: Relocations, i: u32) -> u32
    ensures { result ≡ le 4 f.now (entry_at r i + 12) }
{
    reads::read32(f, r.at as usize + ENTRY_BYTES * (i as usize) + 12)
}

// An entry's addend, as its eight bytes.
pub fn addend_at(f: &[u8], r: Relocations, i: u32) -> u64
    ensures { result ≡ le 8 f.now (entry_at r i + 16) }
{
    reads::read64(f, r.at as usize + ENTRY_BYTES * (i as usize) + 16)
}

// Where the entry of symbol n is backed.
#[tactic(auto, unfolding(rules::specs::Relocations::symbol_backing))]
fn symbol_backing(f: &[u8], h: Headers, n: u32, symbols: Option<u64>) -> Option<u32>
    ensures { result ≡ symbol_backing f.now h n symbols }
{
    let table = symbols?;
    let offset = SYMBOL_BYTES * (n as u64);
    if reads::sum_within(table, offset, MEMORY_LIMIT) {
        segments::backing_of(f, h, table + offset, SYMBOL_BYTES)
    } else {
        None
    }
}

// The symbol entry at a position of the file.
#[tactic(auto, unfolding(rules::specs::Relocations::symbol_of))]
fn symbol_of(f: &[u8], at: u32) -> Symbol
    ensures { result ≡ symbol_of f.now at }
{
    let p = at as usize;
    Symbol {
        info: reads::byte_at(f, p + 4),
        section: reads::read16(f, p + 6),
        value: reads::read64(f, p + 8),
    }
}

// What a symbol refers to, where it is allowed.
#[tactic(auto, unfolding(rules::specs::Relocations::target_of))]
fn target_of(s: Symbol) -> Target
    ensures { result ≡ target_of s }
{
    match (s.info % 16, s.section) {
        (STT_TLS | STT_GNU_IFUNC, _) => Target::Barred,
        (_, 1..SHN_LORESERVE) => Target::Defined(s.value),
        (_, 0) if s.info / 16 == STB_WEAK => Target::Undefined,
        _ => Target::Barred,
    }
}

// What the symbol whose entry stands at a position of the file refers to.
#[tactic(auto, unfolding(rules::specs::Relocations::named_target))]
fn named_target(f: &[u8], p: Option<u32>) -> Target
    ensures { result ≡ named_target f.now p }
{
    match p {
        Some(at) => target_of(symbol_of(f, at)),
        None => Target::Barred,
    }
}

// The kinds that have a symbol.
pub fn is_symbolic(kind: u32) -> bool
    ensures { result ≡ (eqb kind abs64 || eqb kind glob_dat) }
{
    kind == R_AARCH64_ABS64 || kind == R_AARCH64_GLOB_DAT
}

// What an entry of a kind and a symbol refers to.
#[tactic(auto, unfolding(rules::specs::Relocations::target))]
pub fn find_target(f: &[u8], h: Headers, symbols: Option<u64>, kind: u32, symbol: u32) -> Target
    ensures { result ≡ target f.now h symbols kind symbol }
{
    match kind {
        R_AARCH64_RELATIVE if symbol == 0 => Target::Base,
        R_AARCH64_ABS64 | R_AARCH64_GLOB_DAT if symbol != 0 => {
            named_target(f, symbol_backing(f, h, symbol, symbols))
        }
        _ => Target::Barred,
    }
}

// A target that check 10 refuses.
pub fn is_barred(t: Target) -> bool
    ensures { result ≡ barred t }
{
    match t {
        Target::Base => false,
        Target::Defined(_) => false,
        Target::Undefined => false,
        Target::Barred => true,
    }
}
