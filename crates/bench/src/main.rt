// Runs the unmarked cases of the bench sheet, and the words and tables of the marked ones, and writes a line for each.
#![tactic(auto)]

use bench_images::SHEET_PLACE;
use bench_runs::BIAS;
use std::io;

// -1, -128 and -4,096 as eight bytes hold them.
const MINUS_1: u64 = 0xffffffffffffffff;

const MINUS_128: u64 = 0xffffffffffffff80;

const MINUS_4096: u64 = 0xfffffffffffff000;

// 2^48 and the number before it, less the bias.
const LIMIT_LESS_BIAS: u64 = 0xffffc0000000;

const LAST_LESS_BIAS: u64 = 0xffffbfffffff;

fn run_words(rt: &impl Print) -> io::Result<()> {
    bench_runs::run_sheet(rt, b"A = 0x10C0, *P = -128: ", BIAS, 0x10c0, MINUS_128)?;
    bench_runs::run_sheet(rt, b"A = 0x10C0, *P = 0: ", BIAS, 0x10c0, 0)?;
    bench_runs::run_sheet(rt, b"A = 0x10C0, *P = -1: ", BIAS, 0x10c0, MINUS_1)?;
    bench_runs::run_sheet(rt, b"A = 0x1020, *P = 0: ", BIAS, 0x1020, 0)
}

fn run_addresses(rt: &impl Print) -> io::Result<()> {
    bench_runs::run_sheet(rt, b"bias 0, A = -1: ", 0, MINUS_1, 0)?;
    bench_runs::run_sheet(rt, b"bias 4096, A = -4096, *P = 0: ", 4096, MINUS_4096, 0)?;
    bench_runs::run_sheet(rt, b"address 2^48 - 1: ", BIAS, LAST_LESS_BIAS, 0)?;
    bench_runs::run_sheet(rt, b"address 2^48: ", BIAS, LIMIT_LESS_BIAS, 0)
}

fn run_choices(rt: &impl Print) -> io::Result<()> {
    bench_runs::run_choices(
        rt,
        b"tags 3, 9, 9: ",
        BIAS,
        0x10c0,
        MINUS_128,
        b"\x03\x09\x09",
    )?;
    bench_runs::run_choices(
        rt,
        b"tags 3, 3, 5: ",
        BIAS,
        0x10c0,
        MINUS_128,
        b"\x03\x03\x05",
    )
}

fn run_packed(rt: &impl Print) -> io::Result<()> {
    bench_runs::run_packed(
        rt,
        b"packed place, loaded 0x10C0: ",
        SHEET_PLACE as u64,
        0x10c0,
    )?;
    bench_runs::run_packed(
        rt,
        b"packed place, loaded 2^48 - bias: ",
        SHEET_PLACE as u64,
        LIMIT_LESS_BIAS,
    )?;
    bench_runs::run_packed(rt, b"packed bitmap first: ", 3, 0x10c0)
}

fn main(rt: HostRuntime) -> io::Result<()> {
    bench_report::run_numbers(&rt)?;
    run_words(&rt)?;
    run_addresses(&rt)?;
    run_choices(&rt)?;
    bench_runs::run_sheet(&rt, b"bias 0x40000800: ", 0x40000800, 0x10c0, 0)?;
    bench_runs::run_aligned(&rt, b"align 16384, bias 4096: ", 16384, 4096)?;
    bench_runs::run_aligned(&rt, b"align 16384, bias 16384: ", 16384, 16384)?;
    run_packed(&rt)?;
    bench_limits::run_limits(&rt)?;
    bench_runs::run_checks(&rt, b"memory of 16777216, the checks: ", 16777216)?;
    bench_runs::run_checks(&rt, b"memory of 16777232, the checks: ", 16777232)?;
    bench_report::run_tables(&rt)
}
