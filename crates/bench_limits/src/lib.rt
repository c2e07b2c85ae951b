// Loads images at the limits and one past them, and writes a line for each.
#![tactic(auto)]

use bench_images::LONG_FILE;
use bench_runs::{BIAS, TAGS};
use rules::{ENTRY_LIMIT, GLOBAL_LIMIT};
use std::io;

// Bytes of an image, of its memory and of its plane.
const FILE: usize = LONG_FILE as usize;

const MEMORY: usize = 0x202000;

const PLANE: usize = 0x20200;

const CHOICES: usize = GLOBAL_LIMIT as usize;

// The last of the places that a module may have, one after the other behind the file part.
const LAST: usize = FILE + 8 * (ENTRY_LIMIT - 1);

// The start of the last global that a module may have.
const LAST_GLOBAL: u64 = 16 * (GLOBAL_LIMIT as u64 - 1);

// A place by a word, 1,040 bitmaps of 63 and a last one of 15 or 16.
const BITMAPS: u32 = 1041;

const FIFTEEN_BITS: u64 = 0xffff;

const SIXTEEN_BITS: u64 = 0x1ffff;

// The tags of many globals, by turns.
fn put_choices(choices: &mut [u8]) {
    for (i, choice) in choices.iter_mut().enumerate() {
        *choice = (i % 2) as u8 + 1;
    }
}

// Loads an image, with a plane, and below with memory; the word is that of the last place. Each large array is in a function by itself.
fn lend_plane(rt: &impl Print, f: &[u8], choices: &[u8], memory: &mut [u8]) -> io::Result<()> {
    let mut plane = [0u8; PLANE];
    bench_runs::run_load(rt, f, BIAS, memory, &mut plane, choices, LAST)
}

fn lend_memory(rt: &impl Print, f: &[u8], choices: &[u8]) -> io::Result<()> {
    let mut memory = [0u8; MEMORY];
    lend_plane(rt, f, choices, &mut memory)
}

// Loads the image that `put` writes over zeros.
fn put_and_load<F: Fn(&mut [u8])>(
    rt: &impl Print,
    name: &[u8],
    f: &mut [u8],
    choices: &[u8],
    put: F,
) -> io::Result<()>
    requires { F.IsAlwaysCallable put }
{
    rt.write_all(name)?;
    put(f);
    lend_memory(rt, f, choices)
}

// The same, with the room for the image. This is not inlined: the arrays of many calls are on the stack once.
#[inline(never)]
fn run_limit<F: Fn(&mut [u8])>(
    rt: &impl Print,
    name: &[u8],
    choices: &[u8],
    put: F,
) -> io::Result<()>
    requires { F.IsAlwaysCallable put }
{
    let mut f = [0u8; FILE];
    put_and_load(rt, name, &mut f, choices, put)
}

// As many relocations as a module may have, and one more.
fn run_relocations(rt: &impl Print) -> io::Result<()> {
    let entries = ENTRY_LIMIT as u32;
    run_limit(rt, b"65536 relocations: ", TAGS, |f| {
        bench_images::put_long(f, MEMORY as u64, entries, 0x10c0)
    })?;
    run_limit(rt, b"65537 relocations: ", TAGS, |f| {
        bench_images::put_long(f, MEMORY as u64, entries + 1, 0x10c0)
    })?;
    run_limit(
        rt,
        b"65536 relocations, the last at the first place: ",
        TAGS,
        |f| { bench_images::put_repeated(f, MEMORY as u64, entries, 0x10c0) },
    )
}

// The same of packed places.
fn run_packed(rt: &impl Print) -> io::Result<()> {
    run_limit(rt, b"65536 packed places: ", TAGS, |f| {
        bench_images::put_packed_long(f, MEMORY as u64, BITMAPS, FIFTEEN_BITS)
    })?;
    run_limit(rt, b"65537 packed places: ", TAGS, |f| {
        bench_images::put_packed_long(f, MEMORY as u64, BITMAPS, SIXTEEN_BITS)
    })
}

// The same of globals, whose tags take turns.
fn run_choices(rt: &impl Print, choices: &mut [u8]) -> io::Result<()> {
    put_choices(choices);
    run_limit(rt, b"65536 globals: ", choices, |f| {
        bench_images::put_globals(f, MEMORY as u64, GLOBAL_LIMIT, LAST as u64, LAST_GLOBAL)
    })?;
    run_limit(rt, b"65537 globals: ", choices, |f| {
        bench_images::put_globals(f, MEMORY as u64, GLOBAL_LIMIT + 1, LAST as u64, LAST_GLOBAL)
    })
}

fn run_globals(rt: &impl Print) -> io::Result<()> {
    let mut choices = [0u8; CHOICES];
    run_choices(rt, &mut choices)
}

// All of these.
pub fn run_limits(rt: &impl Print) -> io::Result<()> {
    run_relocations(rt)?;
    run_packed(rt)?;
    run_globals(rt)
}
