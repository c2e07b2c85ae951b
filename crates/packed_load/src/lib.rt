// The load with its answer as one number.
#![tactic(auto)]

ghost use Rattle.demands.specs.Calls.{buffers};
ghost use Rattle.packing.specs.Exported.{Exported};

// Loads a module: position × 256 + refusal number, with memory and plane as lent, or globals × 256.
pub fn load_number(
    file: &[u8],
    bias: u64,
    memory: &mut [u8],
    plane: &mut [u8],
    choices: &[u8],
) -> u64
    ensures { Exported file.now bias choices.now (buffers memory.old plane.old) (buffers memory.new plane.new) result }
{
    packing::packed_answer(load::load_module(file, bias, memory, plane, choices))
}
