// The file part of a PT_LOAD, found once and asked again: bytes that it covers are found by one sum.
#![tactic(auto)]

ghost use Rattle.std.specs.Prelude.{◌≡◌, not, ◌&&◌, ◌||◌, ◌<◌};
ghost use Rattle.rules.specs.Outcome.{good};
ghost use Rattle.rules.specs.Segments.{loads_check, writable, backs};
ghost use Rattle.parts.specs.Parts.{PartFound};

use rules::{FILE_LIMIT, Headers, Segment};
use segments::PT_LOAD;

// The size bytes from the address start on stand at a position of the file; size 0 for none.
#[derive(Clone, Copy)]
pub struct Part {
    pub start: u64,
    pub size: u64,
    pub at: u64,
}

// No file part.
pub const NO_PART: Part = Part {
    start: 0,
    size: 0,
    at: 0,
};

// The n bytes from a are inside the file part of a PT_LOAD, a writable one where that is asked.
#[tactic(auto, unfolding(rules::specs::Segments::backs))]
fn is_part(s: Segment, write: bool, a: u64, n: u64) -> bool
    ensures { result ≡ ((not write || writable s) && backs a n s) }
{
    s.kind == PT_LOAD
        && (!write || s.flags / 2 % 2 == 1)
        && reads::holds_range(s.vaddr, s.filesz, a, n)
        && reads::sum_within(s.offset, s.filesz, FILE_LIMIT)
}

// The file part of the first PT_LOAD that backs the n bytes from a, a writable one where that is asked.
pub fn find_part(f: &[u8], h: Headers, write: bool, a: u64, n: u64) -> Option<Part>
    requires { (0 < n) × (loads_check f.now h ≡ good tt) }
    ensures { PartFound f.now h write a n result }
{
    for i in 0..h.count {
        let s = segments::header_at(f, h, i);
        if is_part(s, write, a, n) {
            return Some(Part {
                start: s.vaddr,
                size: s.filesz,
                at: s.offset,
            });
        }
    }
    None
}
