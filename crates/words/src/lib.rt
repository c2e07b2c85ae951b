// The word that a relocation writes: its address, and the granule that its tag is taken from.
#![tactic(auto)]

ghost use Rattle.std.specs.Prelude.{◌≡◌, ◌/◌, pos, ◌+ℤ◌, if◌then◌else◌, nat_lt, slice_index};
ghost use Rattle.rules.specs.Limits.{granule};
ghost use Rattle.rules.specs.Memory.{signed, mod64};
ghost use Rattle.rules.specs.Addresses.{address_of};
ghost use Rattle.rules.specs.Plane.{tag_address};
ghost use Rattle.rules.specs.Words.{source_tag};
ghost use Rattle.rules.specs.Answers.{in_range};

use rules::{ADDRESS_LIMIT, GRANULE, Target};

// base and a signed addend, where that is an address.
fn offset_address(base: u64, addend: u64) -> Option<u64>
    ensures { result ≡ in_range (pos base +ℤ signed addend) }
{
    let sum = base.checked_add_signed(addend.cast_signed())?;
    if sum < ADDRESS_LIMIT { Some(sum) } else { None }
}

// The address of a target with its signed addend, where it is in range.
pub fn address_of(bias: u64, target: Target, addend: u64) -> Option<u64>
    ensures { result ≡ in_range (address_of bias target addend) }
{
    match target {
        Target::Base => offset_address(bias, addend),
        Target::Defined(value) => offset_address(bias.checked_add(value)?, addend),
        Target::Undefined => offset_address(0, addend),
        Target::Barred => offset_address(0, addend),
    }
}

// The address of a target with its signed addend, modulo 2^64: the word without its tag.
pub fn bare_word(bias: u64, target: Target, addend: u64) -> u64
    ensures { result ≡ mod64 (address_of bias target addend) }
{
    match target {
        Target::Base => bias.wrapping_add(addend),
        Target::Defined(value) => bias.wrapping_add(value).wrapping_add(addend),
        Target::Undefined => addend,
        Target::Barred => addend,
    }
}

// The address whose granule a RELATIVE entry takes its tag from: bias, addend and the loaded word, modulo 2^64.
pub fn relative_source(bias: u64, addend: u64, loaded: u64) -> u64
    ensures { result ≡ mod64 (pos bias +ℤ signed addend +ℤ signed loaded) }
{
    bias.wrapping_add(addend).wrapping_add(loaded)
}

// The tag of the granule at a distance from the memory's first address; 0 outside its n addresses.
fn distance_tag(plane: &[u8], n: u64, distance: u64) -> u8
    ensures { result ≡ (if nat_lt distance n then slice_index plane.now (distance / granule) else 0) }
{
    if distance < n {
        reads::byte_at(plane, (distance / GRANULE) as usize)
    } else {
        0
    }
}

// The tag of the granule at a run-time address; 0 outside the n addresses from bias on.
pub fn granule_tag(plane: &[u8], bias: u64, n: u64, source: u64) -> u8
    ensures { result ≡ tag_address plane.now bias n source }
{
    if source < bias {
        0
    } else {
        distance_tag(plane, n, source - bias)
    }
}

// The tag that a target's word takes.
pub fn source_tag(plane: &[u8], bias: u64, n: u64, target: Target, addend: u64, loaded: u64) -> u8
    ensures { result ≡ source_tag plane.now bias n target addend loaded }
{
    match target {
        Target::Base => granule_tag(plane, bias, n, relative_source(bias, addend, loaded)),
        Target::Defined(value) => distance_tag(plane, n, value),
        Target::Undefined => 0,
        Target::Barred => 0,
    }
}
