// One global descriptor, with a short path for most.
#![tactic(auto)]

ghost use Rattle.std.specs.Prelude.{◌≡◌};
ghost use Rattle.rules.specs.Descriptors.{step_at, reading_of};
ghost use Rattle.descriptors.specs.Short.{ShortAt};

use rules::{ADDRESS_LIMIT, Cursor, GRANULE, Global, RADIX, SIZES};

// The number at a position, where it has one or two bytes and is not padded, and the position after it.
fn short_at(s: &[u8], at: u64) -> Option<(u64, u64)>
    ensures { ShortAt s.now at result }
{
    let low = u64::from(*s.get(at as usize)?);
    if low < RADIX {
        return Some((low, at + 1));
    }
    let high = u64::from(*s.get(at as usize + 1)?);
    if high == 0 || RADIX <= high {
        return None;
    }
    Some((low - RADIX + RADIX * high, at + 2))
}

// The descriptor at a cursor, of any length.
fn read_long(table: &[u8], c: Cursor, index: u64) -> Option<(Global, Cursor)>
    ensures { result ≡ reading_of (step_at index table.now c) }
{
    c.step(table, index).unwrap_or(None)
}

// The descriptor at a cursor. The index is the one that a refusal would have.
pub fn read_global(table: &[u8], c: Cursor, index: u64) -> Option<(Global, Cursor)>
    ensures { result ≡ reading_of (step_at index table.now c) }
{
    if let Some((value, next)) = short_at(table, c.position) {
        let distance = GRANULE * (value / SIZES);
        let granules = value % SIZES;
        let size = GRANULE * granules;
        if granules != 0 && c.end % GRANULE == 0 && c.end <= ADDRESS_LIMIT - (distance + size) {
            let start = c.end + distance;
            let end = start + size;
            return Some((
                Global { start, granules },
                Cursor {
                    position: next,
                    end,
                },
            ));
        }
    }
    read_long(table, c, index)
}
