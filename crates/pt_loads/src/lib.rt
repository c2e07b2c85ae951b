// Check 4: the PT_LOADs.
#![tactic(auto)]

ghost use Rattle.std.specs.Prelude.{◌≡◌, false, cond, not, ◌&&◌, ◌+◌};
ghost use Rattle.rules.specs.Segments.{is_load, power_below, aligned, good_load, loads_check};
ghost use Rattle.rules.specs.Answers.{of_result};

use rules::{Headers, MEMORY_LIMIT, Reason, Refusal, Segment};
use segments::PT_LOAD;

// A power of two below 2^64.
fn is_power(a: u64) -> bool
    ensures { result ≡ power_below 64 a }
{
    a.is_power_of_two()
}

// Check 4's last clause, on alignment.
#[tactic(auto, unfolding(rules::specs::Segments::aligned))]
fn is_aligned(align: u64, offset: u64, vaddr: u64) -> bool
    ensures { result ≡ aligned align offset vaddr }
{
    align < 2 || (is_power(align) && offset % align == vaddr % align)
}

// A PT_LOAD is good, in a file of so many bytes, after a PT_LOAD that ends at last.
#[tactic(auto, unfolding(rules::specs::Segments::good_load))]
fn is_good_load(length: u64, last: u64, s: Segment) -> bool
    ensures { result ≡ good_load length last s }
{
    s.memsz != 0
        && s.filesz <= s.memsz
        && reads::sum_within(s.offset, s.filesz, length)
        && reads::sum_within(s.vaddr, s.memsz, MEMORY_LIMIT)
        && last <= s.vaddr
        && is_aligned(s.align, s.offset, s.vaddr)
}

// Check 4, of one header.
fn is_bad_load(length: u64, last: u64, s: Segment) -> bool
    ensures { result ≡ (is_load s && not (good_load length last s)) }
{
    s.kind == PT_LOAD && !is_good_load(length, last, s)
}

// The end of the last PT_LOAD, once this header is seen.
fn end_after(length: u64, last: u64, s: Segment) -> u64
    requires { (is_load s && not (good_load length last s)) ≡ false }
    ensures { result ≡ cond (is_load s) (s.vaddr + s.memsz) last }
{
    if s.kind == PT_LOAD {
        return s.vaddr + s.memsz;
    }
    last
}

// Check 4: the PT_LOADs, refused at the first bad one.
pub fn check_loads(f: &[u8], h: Headers) -> Result<(), Refusal>
    ensures { of_result result ≡ loads_check f.now h }
{
    let length = f.len() as u64;
    let mut last: u64 = 0;
    for i in 0..h.count {
        let s = segments::header_at(f, h, i);
        if is_bad_load(length, last, s) {
            return Err(Reason::Load.at(i as u64));
        }
        last = end_after(length, last, s);
    }
    Ok(())
}
