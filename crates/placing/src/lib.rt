// Check 12, and the segments placed in memory.
#![tactic(auto)]

ghost use Rattle.std.specs.Prelude.{◌≡◌, cond, ◌&&◌, max, length, replicate};
ghost use Rattle.rules.specs.Segments.{header_at, is_load, largest_align};
ghost use Rattle.rules.specs.Lending.{bias_fits, memory_fits, plane_fits, lending_check};
ghost use Rattle.rules.specs.Memory.{put};
ghost use Rattle.rules.specs.Image.{put_load, image_of};
ghost use Rattle.rules.specs.Answers.{of_result};

use rules::{
    ADDRESS_LIMIT, GRANULE, Headers, MEMORY_LIMIT, Module, PAGE, Reason, Refusal, Segment,
};
use segments::{HEADER_BYTES, PT_LOAD};

// The largest align, once the header of an index is seen. Only the fields that are asked for are read.
#[tactic(auto, unfolding(rules::specs::Segments::header_at))]
fn align_after(f: &[u8], h: Headers, largest: u64, i: u32) -> u64
    ensures { result ≡ cond (is_load (header_at f.now h i)) (max largest (header_at f.now h i).align) largest }
{
    let at = h.table as usize + HEADER_BYTES * (i as usize);
    if reads::read32(f, at) != PT_LOAD {
        return largest;
    }
    largest.max(reads::read64(f, at + 48))
}

// The largest align of any PT_LOAD; 0 counts as 1.
#[tactic(auto, unfolding(rules::specs::Segments::align_before))]
fn largest_align(f: &[u8], h: Headers) -> u64
    ensures { result ≡ largest_align f.now h }
{
    let mut largest = 1u64;
    for i in 0..h.count {
        largest = align_after(f, h, largest, i);
    }
    largest
}

// The bias is a multiple of a page and of the largest align, and leaves room for the memory.
#[tactic(auto, using(laws::proofs::Aligns::align_positive), unfolding(rules::specs::Lending::bias_fits))]
fn bias_fits(f: &[u8], h: Headers, memory: u64, bias: u64) -> bool
    ensures { result ≡ bias_fits (largest_align f.now h) memory bias }
{
    bias % PAGE == 0
        && bias % largest_align(f, h) == 0
        && reads::sum_within(bias, memory, ADDRESS_LIMIT)
}

// The lent memory, the plane and the bias fit.
#[tactic(auto, unfolding(rules::specs::Lending::memory_fits, rules::specs::Lending::plane_fits))]
fn lending_fits(f: &[u8], h: Headers, memory: u64, plane: u64, bias: u64) -> bool
    ensures { result ≡ (memory_fits f.now h memory bias && plane_fits memory plane) }
{
    memory % GRANULE == 0
        && segments::loads_end_within(f, h, memory)
        && memory <= MEMORY_LIMIT
        && bias_fits(f, h, memory, bias)
        && plane == memory / GRANULE
}

// Check 12: the lent memory, the plane and the bias.
#[tactic(auto, unfolding(rules::specs::Lending::lending_check, rules::specs::Lending::lending_fits))]
pub fn check_lending(f: &[u8], m: Module, memory: u64, plane: u64, bias: u64) -> Result<(), Refusal>
    ensures { of_result result ≡ lending_check f.now m bias memory plane }
{
    let h = m.headers;
    if lending_fits(f, h, memory, plane, bias) {
        return Ok(());
    }
    Err(Reason::Lending.at(0))
}

// The next header placed, where the bytes from end on are not written yet and count as 0; the answer is the new end.
// A PT_LOAD's bytes of the file land from its address onward, and the gap before them is cleared.
// Before a segment that starts below end or does not fit in the memory, all the rest is cleared.
#[tactic(auto, using(crate::proofs::GapLaws::put_rising, rules::proofs::MemoryLaws::put_out))]
fn place_next(f: &[u8], s: Segment, end: usize, mem: &mut [u8]) -> usize
    ensures { put mem.new result (replicate (length mem.old) 0) ≡
        put_load f.now s (put mem.old end (replicate (length mem.old) 0)) }
{
    if s.kind != PT_LOAD {
        return end;
    }
    let at = s.vaddr as usize;
    let bytes = reads::part_of(f, s.offset as usize, s.filesz as usize);
    let size = mem.len();
    if at < end || size < at || size - at < bytes.len() {
        memory::fill_at(mem, end, size, 0);
        memory::put_bytes(mem, at, bytes);
        return size;
    }
    memory::fill_at(mem, end, at - end, 0);
    memory::put_bytes(mem, at, bytes);
    at + bytes.len()
}

// Memory before relocation: each segment's bytes at its address, all other bytes 0.
#[tactic(auto, using(crate::proofs::GapLaws::put_none), unfolding(rules::specs::Image::loads_over))]
pub fn place_segments(f: &[u8], h: Headers, mem: &mut [u8])
    ensures { mem.new ≡ image_of f.now h (length mem.old) }
{
    let mut end = 0;
    for i in 0..h.count {
        let s = segments::header_at(f, h, i);
        end = place_next(f, s, end, mem);
    }
    memory::fill_at(mem, end, mem.len(), 0);
}
