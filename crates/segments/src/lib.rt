// The program headers one by one: where bytes are backed, and which PT_LOAD holds them.
#![tactic(auto)]

ghost use Rattle.std.specs.Prelude.{◌≡◌, true, cond, Some, ◌+◌, ◌<◌, leb};
ghost use Rattle.rules.specs.Segments.{header_at, is_load, loads_end, backs_at, backing_in, backing_of, holds_at};
ghost use Rattle.segments.specs.Spans.{Sound, Held};

use rules::{FILE_LIMIT, Headers, Segment};

// The memory part of a PT_LOAD, or no bytes.
#[derive(Clone, Copy)]
pub struct Span {
    pub start: u64,
    pub size: u64,
}

// No bytes.
pub const NO_SPAN: Span = Span { start: 0, size: 0 };

// The kind of a PT_LOAD.
pub const PT_LOAD: u32 = 1;

// Bytes of a program header.
pub const HEADER_BYTES: usize = 56;

// The program header of an index.
pub fn header_at(f: &[u8], h: Headers, i: u32) -> Segment
    ensures { result ≡ header_at f.now h i }
{
    let at = h.table as usize + HEADER_BYTES * (i as usize);
    Segment {
        kind: reads::read32(f, at),
        flags: reads::read32(f, at + 4),
        offset: reads::read64(f, at + 8),
        vaddr: reads::read64(f, at + 16),
        filesz: reads::read64(f, at + 32),
        memsz: reads::read64(f, at + 40),
        align: reads::read64(f, at + 48),
    }
}

// The end of the last PT_LOAD is within n, once this header is seen.
fn end_within(fits: bool, s: Segment, n: u64) -> bool
    ensures { result ≡ cond (is_load s) (leb (s.vaddr + s.memsz) n) fits }
{
    if s.kind == PT_LOAD {
        return reads::sum_within(s.vaddr, s.memsz, n);
    }
    fits
}

// The last PT_LOAD ends at or before n.
pub fn loads_end_within(f: &[u8], h: Headers, n: u64) -> bool
    ensures { result ≡ leb (loads_end f.now h) n }
{
    let mut fits = true;
    for i in 0..h.count {
        let s = header_at(f, h, i);
        fits = end_within(fits, s, n);
    }
    fits
}

// The n bytes from a are inside the file part of the segment of an index. Only the fields that are asked for are read.
fn is_backing_at(f: &[u8], h: Headers, a: u64, n: u64, i: u32) -> bool
    ensures { result ≡ backs_at f.now h a n i }
{
    let at = h.table as usize + HEADER_BYTES * (i as usize);
    if reads::read32(f, at) != PT_LOAD {
        return false;
    }
    let filesz = reads::read64(f, at + 32);
    reads::holds_range(reads::read64(f, at + 16), filesz, a, n)
        && reads::sum_within(reads::read64(f, at + 8), filesz, FILE_LIMIT)
}

// Where the bytes from a stand in the file, where the segment of an index backs n of them.
fn backing_at(f: &[u8], h: Headers, a: u64, n: u64, i: u32) -> u32
    requires { backs_at f.now h a n i ≡ true }
    ensures { Some result ≡ backing_in (header_at f.now h i) a }
{
    let at = h.table as usize + HEADER_BYTES * (i as usize);
    let offset = reads::read64(f, at + 8);
    let vaddr = reads::read64(f, at + 16);
    (offset + (a - vaddr)) as u32
}

// Where the n bytes from a are backed.
pub fn backing_of(f: &[u8], h: Headers, a: u64, n: u64) -> Option<u32>
    ensures { result ≡ backing_of f.now h a n }
{
    for i in 0..h.count {
        if is_backing_at(f, h, a, n, i) {
            return Some(backing_at(f, h, a, n, i));
        }
    }
    None
}

// The n bytes from a are inside the memory part of the segment of an index, a writable one where that is asked.
fn is_holding_at(f: &[u8], h: Headers, write: bool, a: u64, n: u64, i: u32) -> bool
    ensures { result ≡ holds_at f.now h write a n i }
{
    let at = h.table as usize + HEADER_BYTES * (i as usize);
    if reads::read32(f, at) != PT_LOAD {
        return false;
    }
    if write && reads::read32(f, at + 4) / 2 % 2 != 1 {
        return false;
    }
    reads::holds_range(reads::read64(f, at + 16), reads::read64(f, at + 40), a, n)
}

// The memory part of the first PT_LOAD that holds the n bytes from a, a writable one where that is asked. Not inlined, so that `hold` can be.
#[inline(never)]
fn find_holder(f: &[u8], h: Headers, write: bool, a: u64, n: u64) -> Option<Span>
    requires { 0 < n }
    ensures { Held f.now h write a n result }
{
    for i in 0..h.count {
        if is_holding_at(f, h, write, a, n, i) {
            let s = header_at(f, h, i);
            return Some(Span {
                start: s.vaddr,
                size: s.memsz,
            });
        }
    }
    None
}

// The PT_LOAD found last where it holds the n bytes from a; else the first that does. A writable one where that is asked.
pub fn hold(f: &[u8], h: Headers, write: bool, last: Span, a: u64, n: u64) -> Option<Span>
    requires { (0 < n) × Sound f.now h write last }
    ensures { Held f.now h write a n result }
{
    if reads::holds_range(last.start, last.size, a, n) {
        return Some(last);
    }
    find_holder(f, h, write, a, n)
}
