// The load: every check before the first byte is written; then segments, tags, words.
#![tactic(auto)]

ghost use Rattle.std.specs.Prelude.{◌≡◌, length};
ghost use Rattle.rules.specs.Answers.{of_result};
ghost use Rattle.demands.specs.Calls.{Call, buffers};
ghost use Rattle.rela_words.specs.Words.{Placed};
ghost use Rattle.load.specs.Written.{written_plane, written_memory};

use rules::{Facts, Module, Refusal};

// The writes: zeros and segments, then tags, then words.
fn write_load(f: &[u8], m: Module, bias: u64, memory: &mut [u8], plane: &mut [u8], choices: &[u8])
    requires { Placed f.now m }
    ensures placed { memory.new ≡ written_memory f.now m bias (written_plane f.now m choices.now (length plane.old)) (length memory.old) }
    ensures tagged { plane.new ≡ written_plane f.now m choices.now (length plane.old) }
{
    let h = m.headers;
    placing::place_segments(f, h, memory);
    tags::tag_globals(f, m, choices, plane);
    relocating::relocate(f, m, bias, plane, memory);
}

// Loads a module into lent memory and tags its plane; a refusal leaves both as lent.
pub fn load_module(
    f: &[u8],
    bias: u64,
    memory: &mut [u8],
    plane: &mut [u8],
    choices: &[u8],
) -> Result<Facts, Refusal>
    ensures { Call f.now bias choices.now (buffers memory.old plane.old) (buffers memory.new plane.new) (of_result result) }
{
    // The reader's answer is taken apart, and its refusal passed up unchanged: document 01's form between two layers.
    let read = elf::read_module(f);
    let Ok(m) = read else {
        return Err(read.unwrap_err());
    };
    let facts = checks::check_load(f, m, bias, memory.len() as u64, plane.len() as u64, choices)?;
    write_load(f, m, bias, memory, plane, choices);
    Ok(facts)
}
