// Checks 1 to 3: the file's length, identification and header.
#![tactic(auto)]

ghost use Rattle.std.specs.Prelude.{◌≡◌, ◌<◌, get_or};
ghost use Rattle.rules.specs.Headers.{size_check, identification, identification_check, good_header, header_check, header_checks, headers_of};
ghost use Rattle.rules.specs.Checks.{runs};
ghost use Rattle.rules.specs.Answers.{of_result};

use rules::{FILE_LEAST, FILE_LIMIT, HEADER_LIMIT, Headers, Reason, Refusal};

// Bytes of a program header.
const HEADER_BYTES: u64 = 56;

const IDENTIFICATION: [u8; 7] = [0x7f, 0x45, 0x4c, 0x46, 2, 1, 1];

// Check 1: the file's length.
#[tactic(auto, unfolding(rules::specs::Headers::size_check))]
fn check_size(f: &[u8]) -> Result<(), Refusal>
    ensures { of_result result ≡ size_check f.now }
{
    let length = f.len() as u64;
    if FILE_LEAST <= length && length <= FILE_LIMIT {
        return Ok(());
    }
    Err(Reason::Length.at(0))
}

// Check 2: the identification, refused at the first wrong byte.
fn check_identification(f: &[u8]) -> Result<(), Refusal>
    ensures { of_result result ≡ identification_check f.now }
{
    for (i, &byte) in IDENTIFICATION.iter().enumerate() {
        if reads::byte_at(f, i) != byte {
            return Err(Reason::Identification.at(i as u64));
        }
    }
    Ok(())
}

// Check 3, of the header's fields.
#[tactic(auto, unfolding(rules::specs::Headers::good_header))]
fn is_good_header(
    length: u64,
    kind: u16,
    machine: u16,
    version: u32,
    size: u16,
    count: u32,
    table: u64,
) -> bool
    ensures { result ≡ good_header length kind machine version size count table }
{
    kind == 3
        && machine == 183
        && version == 1
        && size as u64 == HEADER_BYTES
        && 1 <= count
        && count <= HEADER_LIMIT
        && reads::sum_within(table, HEADER_BYTES * (count as u64), length)
}

// Check 3: the header.
fn check_header(f: &[u8]) -> Result<(), Refusal>
    ensures { of_result result ≡ header_check f.now }
{
    let fine = is_good_header(
        f.len() as u64,
        reads::read16(f, 16),
        reads::read16(f, 18),
        reads::read32(f, 20),
        reads::read16(f, 54),
        reads::read16(f, 56) as u32,
        reads::read64(f, 32),
    );
    if fine {
        return Ok(());
    }
    Err(Reason::Header.at(0))
}

// Checks 1 to 3 in their order.
fn check_file(f: &[u8]) -> Result<(), Refusal>
    ensures { of_result result ≡ runs (header_checks f.now) }
{
    check_size(f)?;
    check_identification(f)?;
    check_header(f)
}

// Checks 1 to 3, and where the program headers are.
pub fn read_headers(f: &[u8]) -> Result<Headers, Refusal>
    ensures { of_result result ≡ headers_of f.now }
{
    check_file(f)?;
    Ok(Headers {
        table: reads::read64(f, 32) as u32,
        count: reads::read16(f, 56) as u32,
    })
}
