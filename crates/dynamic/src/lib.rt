// Check 5: PT_DYNAMIC.
#![tactic(auto)]

ghost use Rattle.std.specs.Prelude.{◌≡◌, ◌-◌, ◌≤◌, ltb};
ghost use Rattle.std.specs.Bool.{then_some};
ghost use Rattle.rules.specs.Dynamic.{is_dynamic_at, dynamic_from, is_null_at, null_entry, good_size, dynamic_at, dynamic_of};
ghost use Rattle.rules.specs.Answers.{of_result};

use rules::{DYNAMIC_LIMIT, Dynamic, Headers, Reason, Refusal};

const PT_DYNAMIC: u32 = 2;

// Bytes of a dynamic entry.
const ENTRY_BYTES: u64 = 16;

fn is_dynamic_at(f: &[u8], h: Headers, i: u32) -> bool
    ensures { result ≡ is_dynamic_at f.now h i }
{
    let s = segments::header_at(f, h, i);
    s.kind == PT_DYNAMIC
}

// The first PT_DYNAMIC from an index on.
fn dynamic_from(f: &[u8], h: Headers, from: u32) -> Option<u32>
    requires { from ≤ h.count }
    ensures { result ≡ then_some (ltb (dynamic_from f.now h from (h.count - from)) h.count) (dynamic_from f.now h from (h.count - from)) }
{
    for i in from..h.count {
        if is_dynamic_at(f, h, i) {
            return Some(i);
        }
    }
    None
}

fn is_null_at(f: &[u8], at: u32, i: u32) -> bool
    ensures { result ≡ is_null_at f.now at i }
{
    reads::read64(f, at as usize + 16 * (i as usize)) == 0
}

// The first DT_NULL of n entries.
fn null_entry(f: &[u8], at: u32, n: u32) -> Option<u32>
    ensures { result ≡ then_some (ltb (null_entry f.now at n) n) (null_entry f.now at n) }
{
    for i in 0..n {
        if is_null_at(f, at, i) {
            return Some(i);
        }
    }
    None
}

// A multiple of 16 from 16 to the limit.
fn is_good_size(size: u64) -> bool
    ensures { result ≡ good_size size }
{
    if size % ENTRY_BYTES != 0 {
        return false;
    }
    if size < ENTRY_BYTES {
        return false;
    }
    size <= DYNAMIC_LIMIT
}

// Check 5, of a PT_DYNAMIC whose contents are backed there in the file.
fn dynamic_at(f: &[u8], i: u32, size: u64, backing: Option<u32>) -> Result<Dynamic, Refusal>
    ensures { of_result result ≡ dynamic_at f.now i size backing }
{
    let Some(at) = backing else {
        return Err(Reason::Dynamic.at(i as u64));
    };
    if !is_good_size(size) {
        return Err(Reason::Dynamic.at(i as u64));
    }
    let n = (size / ENTRY_BYTES) as u32;
    let Some(entries) = null_entry(f, at, n) else {
        return Err(Reason::Dynamic.at(i as u64));
    };
    Ok(Dynamic { at, entries })
}

// Check 5: the one PT_DYNAMIC. Its contents are those at its vaddr.
pub fn find_dynamic(f: &[u8], h: Headers) -> Result<Dynamic, Refusal>
    ensures { of_result result ≡ dynamic_of f.now h }
{
    let Some(one) = dynamic_from(f, h, 0) else {
        return Err(Reason::Dynamic.at(h.count as u64));
    };
    if let Some(two) = dynamic_from(f, h, one + 1) {
        return Err(Reason::Dynamic.at(two as u64));
    }
    let s = segments::header_at(f, h, one);
    let backing = segments::backing_of(f, h, s.vaddr, s.filesz);
    dynamic_at(f, one, s.filesz, backing)
}
