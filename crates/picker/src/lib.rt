// Picks a tag for each global of a list.
#![tactic(auto)]

ghost use Rattle.std.specs.Prelude.{◌≡◌, not, ◌&&◌, ◌≤◌, leb, eqb, length, IfOk};
ghost use Rattle.rules.specs.Outcome.{passed};
ghost use Rattle.rules.specs.First.{some_below};
ghost use Rattle.rules.specs.Picker.{picks_of, abuts_at, tags_needed, tags_allowed};
ghost use Rattle.rules.specs.Answers.{of_list_result};
ghost use Rattle.demands.specs.Picker.{PickCall};
ghost use Rattle.picker.specs.Checking.{checks_of};

use rules::{ListReason, ListRefusal, UNTAGGED};
use writer::{Checked, Globals};

// A global, not the first, starts where the one before ends.
fn abuts(i: usize, end: u64, address: u64) -> bool
    ensures { result ≡ (not (eqb i 0) && eqb end address) }
{
    i != 0 && end == address
}

// Some global does.
fn some_abut(checked: Checked) -> bool
    ensures { result ≡ some_below (abuts_at checked.entry.globals.addresses.now checked.entry.globals.sizes.now) (length checked.entry.globals.addresses.now) }
{
    let Globals { addresses, sizes } = checked.globals;
    let mut end: u64 = 0;
    for (i, &address) in addresses.iter().enumerate() {
        if abuts(i, end, address) {
            return true;
        }
        end = address + sizes[i];
    }
    false
}

// There are fewer tags than the globals need. Two are enough for any.
fn are_few(tags: u8, checked: Checked) -> bool
    ensures { result ≡ not (leb (tags_needed checked.entry.globals.addresses.now checked.entry.globals.sizes.now) tags) }
{
    if 1 < tags {
        return false;
    }
    if checked.globals.addresses.is_empty() {
        return false;
    }
    if tags == 0 {
        return true;
    }
    some_abut(checked)
}

// A tag for each global in turn.
fn fill_choices(checked: Checked, random: &[u8], excluded: u16, choices: &mut [u8])
    requires drawn { length checked.globals.addresses.now ≡ length random.now }
    requires lent { length checked.globals.addresses.now ≡ length choices.old }
    requires enough { tags_needed checked.globals.addresses.now checked.globals.sizes.now ≤ tags_allowed excluded }
    ensures { choices.new ≡ picks_of excluded checked.entry.globals.addresses.now checked.entry.globals.sizes.now random.now }
{
    let Globals { addresses, sizes } = checked.globals;
    let pairs = tag_pairs::pairs_of(excluded);
    let mut end: u64 = 0;
    let mut last: u8 = UNTAGGED;
    for (i, &address) in addresses.iter().enumerate() {
        last = tag_pairs::pick(&pairs, end == address, last, random[i]);
        choices[i] = last;
        end = address + sizes[i];
    }
}

// The checks of the lists and the mask, for so many choices.
fn check_picks<'a>(
    addresses: &'a [u64],
    sizes: &'a [u64],
    random: &[u8],
    excluded: u16,
    room: usize,
) -> Result<Checked<'a>, ListRefusal>
    ensures checked { passed (of_list_result result) ≡ checks_of addresses.now sizes.now random.now excluded room }
    ensures same { IfOk result (λ c. (c.globals.addresses.now ≡ addresses.now) × (c.globals.sizes.now ≡ sizes.now)) }
{
    let globals = addresses.len();
    if sizes.len() != globals || random.len() != globals || room != globals {
        return Err(ListReason::UnequalPicks.at(0));
    }
    let checked = Globals { addresses, sizes }.check()?;
    if are_few(tag_pairs::count_allowed(excluded), checked) {
        return Err(ListReason::FewTags.at(0));
    }
    Ok(checked)
}

// Picks a tag for each global, by addresses and byte sizes, a random byte each and a mask of excluded tags, and answers how many
// globals there are. A refusal has the index of the global, and leaves the choices as they were lent.
pub fn pick_tags(
    addresses: &[u64],
    sizes: &[u64],
    random: &[u8],
    excluded: u16,
    choices: &mut [u8],
) -> Result<u64, ListRefusal>
    ensures { PickCall addresses.now sizes.now random.now excluded choices.old choices.new (of_list_result result) }
{
    let checked = check_picks(addresses, sizes, random, excluded, choices.len())?;
    fill_choices(checked, random, excluded, choices);
    Ok(addresses.len() as u64)
}
