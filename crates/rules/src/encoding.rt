// Reads global descriptors, one at a time.
ghost use Rattle.std.specs.Prelude.{◌≡◌, ◌&&◌, ◌+◌, ◌≤◌, ◌<◌, length};
ghost use Rattle.rules.specs.Limits.{address_limit};
ghost use Rattle.rules.specs.Descriptors.{number, uleb_at, padded, short_second, saying, judged, read_at, step_at};
ghost use Rattle.rules.specs.Answers.{of_step};
ghost use Rattle.rules.specs.Numbers.{of_uleb, of_global, second_at};

use crate::{ADDRESS_LIMIT, Cursor, GRANULE, Global, RADIX, Reason, Refusal, SIZES};

// Bytes of a ULEB128 number.
const ULEB_BYTES: usize = 10;

// A byte at least this has another after it.
const MORE: u8 = 128;

// The tenth byte is below this.
const TENTH_LIMIT: u8 = 2;

// A second number and this are the size.
const SIZE_OFFSET: u64 = 1;

// Sizes below SIZES go into the first number, so a second number is at least this.
const LEAST_SECOND: u64 = SIZES - 1;

// The limit of addresses in granules; no global ends above it.
const GRANULE_LIMIT: u64 = ADDRESS_LIMIT / GRANULE;

// The ULEB128 number at a position, and the position after it; none where it is malformed.
pub fn read_uleb(s: &[u8], from: usize) -> Option<(u64, usize)>
    ensures { of_uleb result ≡ uleb_at s.now from }
{
    let mut at = from;
    let mut value: u64 = 0;
    let mut scale: u64 = 1;
    for _ in 1..ULEB_BYTES {
        let b = *s.get(at)?;
        value += scale * u64::from(b % MORE);
        at += 1;
        if b < MORE {
            return Some((value, at));
        }
        scale *= RADIX;
    }
    let b = *s.get(at)?;
    if TENTH_LIMIT <= b {
        return None;
    }
    Some((value + scale * u64::from(b % MORE), at + 1))
}

// A number of more than one byte whose last byte is 0 is padded.
fn is_padded(s: &[u8], at: usize, next: usize) -> bool
    requires { (at < next) × (next ≤ length s.now) }
    ensures { result ≡ padded s.now at next }
{
    at + 1 < next && s[next - 1] == 0
}

// A second number in shortest form, after a first that is: the size does not go into the first, and the number is not padded.
fn is_short_second(s: &[u8], tight: bool, at: usize, v: u64, next: usize) -> bool
    requires { (at < next) × (next ≤ length s.now) }
    ensures { result ≡ (tight && short_second s.now at (number v next)) }
{
    if !tight {
        return false;
    }
    if v < LEAST_SECOND {
        return false;
    }
    !is_padded(s, at, next)
}

// A global whose size is `less` and 1 more, for it may be 2^64 granules.
fn global_after(
    index: u64,
    short: bool,
    end: u64,
    distance: u64,
    less: u64,
    next: u64,
) -> Result<(Global, Cursor), Refusal>
    requires { end ≤ address_limit }
    ensures { of_global result ≡ judged index short end (saying distance (less + 1) next) }
{
    if !short {
        return Err(Reason::LongForm.at(index));
    }
    if GRANULE_LIMIT < distance {
        return Err(Reason::Global.at(index));
    }
    if GRANULE_LIMIT <= less {
        return Err(Reason::Global.at(index));
    }
    let start = end + GRANULE * distance;
    let granules = less + SIZE_OFFSET;
    let stop = start + GRANULE * granules;
    if ADDRESS_LIMIT < stop {
        return Err(Reason::Global.at(index));
    }
    let global = Global { start, granules };
    let cursor = Cursor {
        position: next,
        end: stop,
    };
    Ok((global, cursor))
}

// The size is the second number plus 1. A size that the first number has room for is not written so.
fn read_second(
    index: u64,
    s: &[u8],
    tight: bool,
    end: u64,
    distance: u64,
    at: usize,
) -> Result<(Global, Cursor), Refusal>
    requires { end ≤ address_limit }
    ensures { of_global result ≡ second_at index tight s.now at end distance }
{
    let Some((v, next)) = read_uleb(s, at) else {
        return Err(Reason::Descriptor.at(index));
    };
    let short = is_short_second(s, tight, at, v, next);
    global_after(index, short, end, distance, v, next as u64)
}

// The first number has the distance and a size, or 0 where a second number follows.
fn read_first(index: u64, s: &[u8], end: u64, at: usize) -> Result<(Global, Cursor), Refusal>
    requires { end ≤ address_limit }
    ensures { of_global result ≡ read_at index s.now at end }
{
    let Some((v, next)) = read_uleb(s, at) else {
        return Err(Reason::Descriptor.at(index));
    };
    let tight = !is_padded(s, at, next);
    let size = v % SIZES;
    if size == 0 {
        read_second(index, s, tight, end, v / SIZES, next)
    } else {
        global_after(
            index,
            tight,
            end,
            v / SIZES,
            size - SIZE_OFFSET,
            next as u64,
        )
    }
}

impl Cursor {
    // One descriptor at the cursor: its global and the moved cursor; none at the table's end. The index is the one to report.
    pub fn step(self, table: &[u8], index: u64) -> Result<Option<(Global, Cursor)>, Refusal>
        ensures { of_step result ≡ step_at index table.now self }
    {
        let position = self.position;
        let end = self.end;
        let length = table.len() as u64;
        if length < position {
            return Err(Reason::Descriptor.at(index));
        }
        if end % GRANULE != 0 {
            return Err(Reason::Global.at(index));
        }
        if ADDRESS_LIMIT < end {
            return Err(Reason::Global.at(index));
        }
        if position == length {
            return Ok(None);
        }
        let read = read_first(index, table, end, position as usize)?;
        Ok(Some(read))
    }
}
