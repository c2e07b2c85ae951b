// Reads descriptors one at a time, as cases of standard input ask, and writes a line for each answer.
//
// A case is the table's length (4 bytes), the table, and the position, the last end and the index to report
// (8 bytes each).
#![tactic(auto)]

ghost use Rattle.std.specs.Prelude.{◌≤◌, ◌<◌, length, IfOk};

use rules::{Cursor, Global, Refusal};
use std::io;

// Bytes of input that are read.
const CASES: usize = 65536;

// Bytes of a case before its table and after it.
const BEFORE: usize = 4;

const AFTER: usize = 24;

fn print_step(rt: &impl Print, step: Result<Option<(Global, Cursor)>, Refusal>) -> io::Result<()> {
    match step {
        Ok(Some((g, c))) => {
            println!(rt;
                "global {} {} {} {}",
                g.start, g.granules, c.position, c.end
            )
        }
        Ok(None) => println!(rt; "finished"),
        Err(r) => println!(rt; "{r}"),
    }
}

// Answers the case at the start of the bytes, and says how many bytes it has; all of them where it is cut short.
fn answer_case(rt: &impl Print, s: &[u8]) -> io::Result<usize>
    requires { 0 < length s.now }
    ensures upper_bound { IfOk result (λ n. n ≤ length s.now) }
    ensures result_nonzero { IfOk result (λ n. 0 < n) }
{
    if s.len() < BEFORE {
        return Ok(s.len());
    }
    let bytes = reads::le32(s, 0) as usize;
    let after = BEFORE + bytes;
    if s.len() < after + AFTER {
        return Ok(s.len());
    }
    let table = &s[BEFORE..after];
    let c = Cursor {
        position: reads::le64(s, after),
        end: reads::le64(s, after + 8),
    };
    print_step(rt, c.step(table, reads::le64(s, after + 16)))?;
    Ok(after + AFTER)
}

fn answer_all(rt: &impl Print, s: &[u8]) -> io::Result<()> {
    let mut rest = s;
    while !rest.is_empty() {
        let n = answer_case(rt, rest)?;
        rest = &rest[n..];
    }
    Ok(())
}

fn main(rt: HostRuntime) -> io::Result<()> {
    let mut cases = [0u8; CASES];
    let n = printing::read_full(&mut rt.stdin(), &mut cases)?;
    answer_all(&rt, &cases[..n])
}
