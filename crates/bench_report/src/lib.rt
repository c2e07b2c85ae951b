// The lines that the bench writes: of a load, of a number, of a descriptor and of a table.
#![tactic(auto)]

use rules::{Cursor, Facts};
use std::io;

// Bytes lent for a table.
const TABLE: usize = 16;

// The globals and the words to relocate.
pub fn print_facts(rt: &impl Print, facts: Facts) -> io::Result<()> {
    println!(rt; "taken {} {}", facts.globals, facts.words)
}

// The globals, the words relocated, and one of them.
pub fn print_taken(rt: &impl Print, facts: Facts, word: u64) -> io::Result<()> {
    println!(rt; "taken {} {} {word:016x}", facts.globals, facts.words)
}

// The number at the front of a table, and the position after it.
fn run_number(rt: &impl Print, name: &[u8], table: &[u8]) -> io::Result<()> {
    rt.write_all(name)?;
    match rules::encoding::read_uleb(table, 0) {
        Some((v, next)) => println!(rt; "{v} {next}"),
        None => println!(rt; "malformed"),
    }
}

// The descriptor at the front of a table.
fn run_step(rt: &impl Print, name: &[u8], table: &[u8]) -> io::Result<()> {
    rt.write_all(name)?;
    let c = Cursor {
        position: 0,
        end: 0,
    };
    match c.step(table, 0) {
        Ok(Some((g, next))) => println!(rt; "{} {} {}", g.start, g.granules, next.position),
        Ok(None) => println!(rt; "finished"),
        Err(r) => println!(rt; "{r}"),
    }
}

// Numbers of ten bytes.
pub fn run_numbers(rt: &impl Print) -> io::Result<()> {
    run_number(
        rt,
        b"nine FF, 01: ",
        b"\xff\xff\xff\xff\xff\xff\xff\xff\xff\x01",
    )?;
    run_step(
        rt,
        b"as first number: ",
        b"\xff\xff\xff\xff\xff\xff\xff\xff\xff\x01",
    )?;
    run_step(
        rt,
        b"as second number: ",
        b"\x00\xff\xff\xff\xff\xff\xff\xff\xff\xff\x01",
    )
}

// So many bytes from the front, each with a space before it.
fn print_bytes(rt: &impl Print, bytes: &[u8], count: u64) -> io::Result<()> {
    for byte in bytes.iter().take(count as usize) {
        print!(rt; " {byte:02x}")?;
    }
    Ok(())
}

// The table of a list of globals: its length and bytes, or the refusal.
fn run_table(rt: &impl Print, name: &[u8], addresses: &[u64], sizes: &[u64]) -> io::Result<()> {
    let mut buffer = [0u8; TABLE];
    rt.write_all(name)?;
    match writer::write_table(addresses, sizes, &mut buffer) {
        Ok(length) => {
            print!(rt; "written {length}")?;
            print_bytes(rt, &buffer, length)?;
            println!(rt)
        }
        Err(r) => println!(rt; "{r}"),
    }
}

// The sheet's three globals; sizes on both sides of a second number; a size of 0.
pub fn run_tables(rt: &impl Print) -> io::Result<()> {
    run_table(
        rt,
        b"three globals: ",
        &[0x1000, 0x1040, 0x10c0],
        &[0x20, 0x80, 0x10],
    )?;
    run_table(rt, b"7 granules: ", &[0], &[0x70])?;
    run_table(rt, b"8 granules: ", &[0], &[0x80])?;
    run_table(rt, b"size 0: ", &[0x1000, 0x1040], &[0x20, 0])
}
