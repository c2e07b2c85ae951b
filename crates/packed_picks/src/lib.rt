// The picker with its answer as one number.
#![tactic(auto)]

ghost use Rattle.packing.specs.Exported.{PicksExported};

// Picks a tag for each global: how many there are × 256, or index × 256 + refusal number with the choices as lent.
pub fn picks_number(
    addresses: &[u64],
    sizes: &[u64],
    random: &[u8],
    excluded: u16,
    choices: &mut [u8],
) -> u64
    ensures { PicksExported addresses.now sizes.now random.now excluded choices.old choices.new result }
{
    packing::packed_list_answer(picker::pick_tags(addresses, sizes, random, excluded, choices))
}
