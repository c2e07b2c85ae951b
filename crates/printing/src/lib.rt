// Reads the input of a program, and writes the globals of a file to standard output.
#![tactic(auto)]

ghost use Rattle.std.specs.Prelude.{◌≡◌, ◌≤◌, length, IfOk};
ghost use Rattle.rules.specs.Outcome.{good};
ghost use Rattle.rules.specs.Reader.{module_of};
ghost use Rattle.rules.specs.Choices.{globals_in, global_at};

use rules::{Cursor, Global, Module};
use std::io;
use std::io::Read;

// Reads until the bytes are full or the input ends, and says how many were read.
pub fn read_full(input: &mut impl Read, bytes: &mut [u8]) -> io::Result<usize>
    ensures { IfOk result (λ n. n ≤ length bytes.new) }
{
    let mut done = 0;
    while done < bytes.len() {
        let n = input.read(&mut bytes[done..])?;
        if n == 0 {
            break;
        }
        done += n;
    }
    Ok(done)
}

// Written is the global of the index i.
fn print_global(rt: &impl Print, f: &[u8], m: Module, i: u32, g: Global) -> io::Result<()>
    requires { g ≡ global_at (globals_in f.now m) i }
{
    println!(rt; "{} {}", g.start, g.granules)
}

// A line for each global that the table lists; says how many lines.
fn print_globals(rt: &impl Print, f: &[u8], m: Module) -> io::Result<u32>
    requires { module_of f.now ≡ good m }
    ensures { IfOk result (λ n. n ≡ length (globals_in f.now m)) }
{
    let t = m.descriptors;
    let table = reads::part_of(f, t.at as usize, t.bytes as usize);
    let mut cursor = Cursor {
        position: 0,
        end: 0,
    };
    for i in 0..m.globals {
        let Ok(Some((g, next))) = cursor.step(table, i as u64) else {
            return Ok(i);
        };
        print_global(rt, f, m, i, g)?;
        cursor = next;
    }
    Ok(m.globals)
}

// The number of globals, and each of them; nothing for a file that the reader refuses.
pub fn print_module(rt: &impl Print, f: &[u8]) -> io::Result<()> {
    let Ok(m) = elf::read_module(f) else {
        return Ok(());
    };
    println!(rt; "globals {}", m.globals)?;
    print_globals(rt, f, m)?;
    Ok(())
}
