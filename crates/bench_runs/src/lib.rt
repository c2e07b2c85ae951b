// Loads an image of the bench sheet, and writes a line for it.
#![tactic(auto)]

use bench_images::SHEET_PLACE;
use rules::GRANULE;
use std::io;

// Bytes of an image.
const FILE: usize = 1024;

// The memory of the sheet's image.
const SHEET_MEMORY: usize = 0x2000;

const SHEET_PLANE: usize = 0x200;

// The bias of the sheet, and the tags of its three globals.
pub const BIAS: u64 = 0x40000000;

pub const TAGS: &[u8] = b"\x03\x09\x05";

// Loads an image; writes the globals, the words relocated and the word at a place, or the refusal.
pub fn run_load(
    rt: &impl Print,
    f: &[u8],
    bias: u64,
    memory: &mut [u8],
    plane: &mut [u8],
    choices: &[u8],
    place: usize,
) -> io::Result<()> {
    match load::load_module(f, bias, memory, plane, choices) {
        Ok(facts) => bench_report::print_taken(rt, facts, reads::read64(memory, place)),
        Err(r) => println!(rt; "{r}"),
    }
}

// Loads the sheet's image.
fn run_image(rt: &impl Print, f: &[u8], name: &[u8], bias: u64, choices: &[u8]) -> io::Result<()> {
    let mut memory = [0u8; SHEET_MEMORY];
    let mut plane = [0u8; SHEET_PLANE];
    rt.write_all(name)?;
    run_load(rt, f, bias, &mut memory, &mut plane, choices, SHEET_PLACE)
}

// With one relocation and any choices.
pub fn run_choices(
    rt: &impl Print,
    name: &[u8],
    bias: u64,
    addend: u64,
    loaded: u64,
    choices: &[u8],
) -> io::Result<()> {
    let mut f = [0u8; FILE];
    bench_images::put_sheet(&mut f, SHEET_MEMORY as u64, addend, loaded);
    run_image(rt, &f, name, bias, choices)
}

// With the sheet's tags.
pub fn run_sheet(
    rt: &impl Print,
    name: &[u8],
    bias: u64,
    addend: u64,
    loaded: u64,
) -> io::Result<()> {
    run_choices(rt, name, bias, addend, loaded, TAGS)
}

// With an align of its PT_LOAD.
pub fn run_aligned(rt: &impl Print, name: &[u8], align: u64, bias: u64) -> io::Result<()> {
    let mut f = [0u8; FILE];
    bench_images::put_sheet(&mut f, SHEET_MEMORY as u64, 0x10c0, 0);
    bench_images::put_align(&mut f, align);
    run_image(rt, &f, name, bias, TAGS)
}

// With a packed table of one word.
pub fn run_packed(rt: &impl Print, name: &[u8], word: u64, loaded: u64) -> io::Result<()> {
    let mut f = [0u8; FILE];
    bench_images::put_packed(&mut f, SHEET_MEMORY as u64, word, loaded);
    run_image(rt, &f, name, BIAS, TAGS)
}

// Makes every check of a load into memory of so many bytes, with a plane of a sixteenth; writes the globals and the words to relocate, or
// the refusal. Nothing is lent and nothing written, so that memory may be longer than a program's own.
fn print_checks(rt: &impl Print, f: &[u8], memory: u64) -> io::Result<()> {
    let Ok(m) = elf::read_module(f) else {
        return println!(rt; "not read");
    };
    match checks::check_load(f, m, BIAS, memory, memory / GRANULE, TAGS) {
        Ok(facts) => bench_report::print_facts(rt, facts),
        Err(r) => println!(rt; "{r}"),
    }
}

// The sheet's image, with memory of so many bytes.
pub fn run_checks(rt: &impl Print, name: &[u8], memory: u64) -> io::Result<()> {
    let mut f = [0u8; FILE];
    bench_images::put_sheet(&mut f, SHEET_MEMORY as u64, 0x10c0, 0);
    rt.write_all(name)?;
    print_checks(rt, &f, memory)
}
