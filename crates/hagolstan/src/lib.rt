// The calls that a C host makes.
#![tactic(auto)]

ghost use Rattle.std.specs.Prelude.{◌≡◌};
ghost use Rattle.rules.specs.Examine.{examined_of};
ghost use Rattle.rules.specs.Descriptors.{step_at};
ghost use Rattle.demands.specs.Calls.{buffers};
ghost use Rattle.packing.specs.Packed.{packed, packed_facts, step_number, step_words};
ghost use Rattle.packing.specs.Exported.{Exported, TableExported, PicksExported};

// Examines a file: position × 256 + refusal number, or globals × 256.
#[unsafe(no_mangle)]
pub extern "C" fn hagolstan_examine(file: &[u8]) -> u64
    ensures { result ≡ packed (examined_of file.now) }
{
    packing::packed_answer(examine::examine_file(file))
}

// The facts of a file in one number, or 0 where examine refuses it.
#[unsafe(no_mangle)]
pub extern "C" fn hagolstan_facts(file: &[u8]) -> u64
    ensures { result ≡ packed_facts (examined_of file.now) }
{
    match examine::examine_file(file) {
        Ok(facts) => packing::facts_number(facts),
        Err(_) => 0,
    }
}

// Loads a module: position × 256 + refusal number, with memory and plane as lent, or globals × 256.
#[unsafe(no_mangle)]
pub extern "C" fn hagolstan_load(
    file: &[u8],
    bias: u64,
    memory: &mut [u8],
    plane: &mut [u8],
    choices: &[u8],
) -> u64
    ensures { Exported file.now bias choices.now (buffers memory.old plane.old) (buffers memory.new plane.new) result }
{
    packed_load::load_number(file, bias, memory, plane, choices)
}

// Reads one descriptor of a table: 0 finished, 1 a global, or the refusal number. Its words go to the lent bytes.
#[unsafe(no_mangle)]
pub extern "C" fn hagolstan_step(
    table: &[u8],
    position: u64,
    end: u64,
    index: u64,
    words: &mut [u8],
) -> u64
    ensures answered { result ≡ step_number (step_at index table.now (record { position = position; end = end })) }
    ensures written { words.new ≡ step_words (step_at index table.now (record { position = position; end = end })) words.old }
{
    packing::step_number(table, position, end, index, words)
}

// Writes a descriptor table: its length × 256, or index × 256 + refusal number with the buffer as lent.
#[unsafe(no_mangle)]
pub extern "C" fn hagolstan_write_table(addresses: &[u64], sizes: &[u64], buffer: &mut [u8]) -> u64
    ensures { TableExported addresses.now sizes.now buffer.old buffer.new result }
{
    packing::table_number(addresses, sizes, buffer)
}

// Picks a tag for each global: how many there are × 256, or index × 256 + refusal number with the choices as lent.
#[unsafe(no_mangle)]
pub extern "C" fn hagolstan_pick_tags(
    addresses: &[u64],
    sizes: &[u64],
    random: &[u8],
    excluded: u16,
    choices: &mut [u8],
) -> u64
    ensures { PicksExported addresses.now sizes.now random.now excluded choices.old choices.new result }
{
    packed_picks::picks_number(addresses, sizes, random, excluded, choices)
}
