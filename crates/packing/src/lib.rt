// Answers as numbers and words: a refusal, the facts, a descriptor that was read.
#![tactic(auto)]

ghost use Rattle.std.specs.Prelude.{◌≡◌, ◌≤◌, ◌<◌};
ghost use Rattle.std.specs.Result.{ForOk, ForErr};
ghost use Rattle.rules.specs.Outcome.{good, refusal};
ghost use Rattle.rules.specs.Descriptors.{global, step_at};
ghost use Rattle.rules.specs.Answers.{of_result, of_list_result};
ghost use Rattle.packing.specs.Packed.{pack_limit, packed_refusal, packed, packed_count, mode_number, switch_number, facts_number, step_number, step_words};
ghost use Rattle.packing.specs.Exported.{TableExported};

use rules::{Cursor, Facts, Global, ListRefusal, Mode, Refusal, Switch};

// A count or a position stands above the low byte.
const UNIT: u64 = 256;

// Where the counts stand in the facts as one number: globals from bit 8 on, words from bit 25.
const GLOBALS_UNIT: u64 = 256;

const WORDS_UNIT: u64 = 33554432;

// A refusal as one number.
pub fn pack_refusal(number: u8, position: u64) -> u64
    requires { position < pack_limit }
    ensures { result ≡ packed_refusal (refusal number position) }
{
    position * UNIT + u64::from(number)
}

// The facts' number of globals, or a refusal, as one number.
pub fn packed_answer(answer: Result<Facts, Refusal>) -> u64
    requires { ForErr answer (λ r. r.position < pack_limit) }
    ensures { result ≡ packed (of_result answer) }
{
    match answer {
        Ok(a) => u64::from(a.globals) * UNIT,
        Err(r) => pack_refusal(u8::from(r.reason), r.position),
    }
}

// A count of a list of globals, or a refusal, as one number.
pub fn packed_list_answer(answer: Result<u64, ListRefusal>) -> u64
    requires counted { ForOk answer (λ n. n < pack_limit) }
    requires placed { ForErr answer (λ r. r.position < pack_limit) }
    ensures { result ≡ packed_count (of_list_result answer) }
{
    match answer {
        Ok(count) => count * UNIT,
        Err(r) => pack_refusal(u8::from(r.reason), r.position),
    }
}

fn mode_number(m: Mode) -> u64
    ensures { (result ≡ mode_number m) × (result ≤ 2) }
{
    match m {
        Mode::Absent => 0,
        Mode::Synchronous => 1,
        Mode::Asynchronous => 2,
    }
}

fn switch_number(s: Switch) -> u64
    ensures { (result ≡ switch_number s) × (result ≤ 2) }
{
    match s {
        Switch::Absent => 0,
        Switch::Off => 1,
        Switch::On => 2,
    }
}

// All facts as one number.
pub fn facts_number(a: Facts) -> u64
    ensures { result ≡ facts_number a }
{
    1 + 4 * mode_number(a.mode)
        + 16 * switch_number(a.heap)
        + 64 * switch_number(a.stack)
        + GLOBALS_UNIT * u64::from(a.globals)
        + WORDS_UNIT * u64::from(a.words)
}

// Writes a descriptor table: its length as a number, or the refusal's.
pub fn table_number(addresses: &[u64], sizes: &[u64], buffer: &mut [u8]) -> u64
    ensures { TableExported addresses.now sizes.now buffer.old buffer.new result }
{
    packed_list_answer(writer::write_table(addresses, sizes, buffer))
}

// The words of a global that was read: its start and granules, and the moved cursor.
fn write_global(words: &mut [u8], g: Global, next: Cursor)
    ensures { words.new ≡ step_words (good (global g next)) words.old }
{
    memory::put64(words, 0, g.start);
    memory::put64(words, 8, g.granules);
    memory::put64(words, 16, next.position);
    memory::put64(words, 24, next.end);
}

// Reads one descriptor of a table: 0 finished, 1 a global, or the refusal number. Its words go to the lent bytes.
pub fn step_number(table: &[u8], position: u64, end: u64, index: u64, words: &mut [u8]) -> u64
    ensures answered { result ≡ step_number (step_at index table.now (record { position = position; end = end })) }
    ensures written { words.new ≡ step_words (step_at index table.now (record { position = position; end = end })) words.old }
{
    let cursor = Cursor { position, end };
    let step = cursor.step(table, index);
    let Ok(read) = step else {
        let r = step.unwrap_err();
        memory::put64(words, 0, r.position);
        return u64::from(u8::from(r.reason));
    };
    let Some((g, next)) = read else {
        return 0;
    };
    write_global(words, g, next);
    1
}
