// Checks 8, 16 and 9: the walk over global descriptors.
#![tactic(auto)]

ghost use Rattle.std.specs.Prelude.{◌≡◌};
ghost use Rattle.rules.specs.Limits.{global_limit};
ghost use Rattle.rules.specs.Outcome.{good, and_then};
ghost use Rattle.rules.specs.Descriptors.{step_at, globals_from, globals_of, table_start};
ghost use Rattle.rules.specs.Answers.{of_result, count_of};

use rules::{Cursor, Descriptors, GLOBAL_LIMIT, GRANULE, Headers, Reason, Refusal};
use segments::NO_SPAN;

// The end of the walk at a cursor where no global was read: the table's end after i globals, or the refusal.
fn finish(table: &[u8], c: Cursor, i: u32) -> Result<u32, Refusal>
    ensures { of_result result ≡ and_then (step_at i table.now c) (λ _. good i) }
{
    c.step(table, u64::from(i))?;
    Ok(i)
}

// The walk over a table: read one descriptor, check its form and its range, go on. The PT_LOAD found last is asked first.
fn walk_table(f: &[u8], h: Headers, table: &[u8]) -> Result<u32, Refusal>
    ensures { of_result result ≡ count_of (globals_from f.now h table.now global_limit 0 table_start) }
{
    let mut c = Cursor {
        position: 0,
        end: 0,
    };
    let mut holder = NO_SPAN;
    for i in 0..GLOBAL_LIMIT {
        let Some((g, next)) = descriptors::read_global(table, c, u64::from(i)) else {
            return finish(table, c, i);
        };
        let size = GRANULE * g.granules;
        let Some(span) = segments::hold(f, h, false, holder, g.start, size) else {
            return Err(Reason::Global.at(u64::from(i)));
        };
        holder = span;
        c = next;
    }
    if c.position < table.len() as u64 {
        return Err(Reason::Global.at(u64::from(GLOBAL_LIMIT)));
    }
    Ok(GLOBAL_LIMIT)
}

// Checks 8, 16 and 9, and how many globals the table lists.
pub fn count_globals(f: &[u8], h: Headers, t: Descriptors) -> Result<u32, Refusal>
    ensures { of_result result ≡ count_of (globals_of f.now h t) }
{
    let table = reads::part_of(f, t.at as usize, t.bytes as usize);
    walk_table(f, h, table)
}
