// Items in which nothing is wrong: told by few tests, without a search. What is not told here is judged by itself.
#![tactic(auto)]

ghost use Rattle.std.specs.Prelude.{◌≡◌, ◌+◌, ◌*◌, ◌%◌, ◌^◌, ◌<◌, ◌≤◌, true, false, ◌&&◌, length, pos, ◌+ℤ◌, ◌==◌};
ghost use Rattle.rules.specs.Outcome.{good};
ghost use Rattle.rules.specs.Memory.{signed};
ghost use Rattle.rules.specs.Segments.{loads_check, covers};
ghost use Rattle.rules.specs.Relocations.{target, barred};
ghost use Rattle.rules.specs.Addresses.{address_of, out_of_range};
ghost use Rattle.rules.specs.declared.Target.TheVariants.{Defined};
ghost use Rattle.segments.specs.Spans.{Sound};
ghost use Rattle.parts.specs.Parts.{Parted};
ghost use Rattle.items.specs.Table.{Inside};
ghost use Rattle.clear.specs.Clear.{Nears, Aims, Clear, ClearPlace};

use items::{ENTRY_BYTES, R_AARCH64_RELATIVE, SHN_LORESERVE, STT_GNU_IFUNC, STT_TLS, SYMBOL_BYTES};
use parts::Part;
use rules::{ADDRESS_LIMIT, Headers, Module, Target};
use segments::Span;

// The symbols of the file part that has the first one: where they begin in the file, and how many they are.
#[derive(Clone, Copy)]
pub struct Near {
    pub at: u32,
    pub count: u32,
}

// No symbols.
const NO_NEAR: Near = Near { at: 0, count: 0 };

// 2^61: two numbers below it have a sum below 2^62.
pub const FAR: u64 = 2305843009213693952;

// The symbols that are found by one sum.
pub fn near_symbols(f: &[u8], m: Module) -> Near
    requires { loads_check f.now m.headers ≡ good tt }
    ensures { Nears f.now m result }
{
    let Some(table) = m.symbols else {
        return NO_NEAR;
    };
    let Some(part) = parts::find_part(f, m.headers, false, table, SYMBOL_BYTES) else {
        return NO_NEAR;
    };
    let before = table - part.start;
    Near {
        at: (part.at + before) as u32,
        count: ((part.size - before) / SYMBOL_BYTES) as u32,
    }
}

// A multiple of 8 whose eight bytes are among the size bytes from start on.
fn fits(start: u64, size: u64, place: u64) -> bool
    ensures { result ≡ (place % 8 == 0 && covers start size place 8) }
{
    place % 8 == 0 && reads::holds_range(start, size, place, 8)
}

// A base and a signed addend sum to an address: of a base below 2^62 the sum modulo 2^64 tells it.
fn is_inside(base: u64, addend: u64) -> bool
    requires { base < 2 ^ 62 }
    ensures { result ≡ true → out_of_range (pos base +ℤ signed addend) ≡ false }
{
    base.wrapping_add(addend) < ADDRESS_LIMIT
}

// The bias, a value and a signed addend sum to an address. Values from 2^61 on are not told.
fn is_value_inside(bias: u64, value: u64, addend: u64) -> bool
    requires { bias < 2 ^ 61 }
    ensures { result ≡ true → out_of_range (address_of bias (Defined value) addend) ≡ false }
{
    value < FAR && is_inside(bias + value, addend)
}

// The target of a kind and a near symbol, as few tests tell it; Barred where they do not.
pub fn near_target(f: &[u8], near: Near, kind: u32, symbol: u32) -> Target
    requires { near.at + 24 * near.count ≤ length f.now }
    ensures { (m : Module) → Nears f.now m near → barred result ≡ false → target f.now m.headers m.symbols kind symbol ≡ result }
{
    if kind == R_AARCH64_RELATIVE && symbol == 0 {
        return Target::Base;
    }
    if !items::is_symbolic(kind) || symbol == 0 || near.count <= symbol {
        return Target::Barred;
    }
    let at = near.at as usize + SYMBOL_BYTES as usize * (symbol as usize);
    let info = reads::byte(f, at + 4);
    let section = reads::le16(f, at + 6);
    match (info % 16, section) {
        (STT_TLS | STT_GNU_IFUNC, _) => Target::Barred,
        (_, 1..SHN_LORESERVE) => Target::Defined(reads::le64(f, at + 8)),
        _ => Target::Barred,
    }
}

// A target that is told, and whose address with an addend is in range.
fn is_aimed(bias: u64, t: Target, addend: u64) -> bool
    requires { bias < 2 ^ 61 }
    ensures { result ≡ true → Aims bias t addend }
{
    match t {
        Target::Base => is_inside(bias, addend),
        Target::Defined(value) => is_value_inside(bias, value, addend),
        Target::Undefined => false,
        Target::Barred => false,
    }
}

// An entry in which nothing is wrong.
pub fn is_clear_entry(f: &[u8], m: Module, bias: u64, near: Near, last: Span, i: u32) -> bool
    requires { Inside f.now m × (i < m.relocations.entries) × Nears f.now m near × Sound f.now m.headers true last × (bias < 2 ^ 61) }
    ensures { result ≡ true → Clear f.now m bias i }
{
    let at = m.relocations.at as usize + ENTRY_BYTES * (i as usize);
    let place = reads::le64(f, at);
    if !fits(last.start, last.size, place) {
        return false;
    }
    let kind = reads::le32(f, at + 8);
    let symbol = reads::le32(f, at + 12);
    let addend = reads::le64(f, at + 16);
    let t = near_target(f, near, kind, symbol);
    is_aimed(bias, t, addend)
}

// A packed place with nothing wrong, by the file part found last.
pub fn is_clear_place(f: &[u8], h: Headers, bias: u64, last: Part, place: u64) -> bool
    requires { (loads_check f.now h ≡ good tt) × Parted f.now h true last }
    ensures { result ≡ true → ClearPlace f.now h bias place }
{
    if FAR <= bias || !fits(last.start, last.size, place) {
        return false;
    }
    let loaded = reads::le64(f, (last.at + (place - last.start)) as usize);
    is_value_inside(bias, loaded, 0)
}
