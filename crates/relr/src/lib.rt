// Check 15: the table of packed relocations.
#![tactic(auto)]

ghost use Rattle.std.specs.Prelude.{◌≡◌};
ghost use Rattle.rules.specs.Packed.{packed_of};
ghost use Rattle.rules.specs.Answers.{of_result};
ghost use Rattle.relr.specs.Count.{count_of, count_in};

use places::WORD_BYTES;
use rules::{
    DT_RELR, DT_RELRSZ, Dynamic, ENTRY_LIMIT, Headers, Packed, Reason, Refusal, Relocations,
};

// How many places a word names: an even one itself, an odd one a place for each bit but the lowest. A bitmap of none needs no count.
fn count_of(w: u64) -> u32
    ensures { result ≡ count_of w }
{
    if w % 2 == 0 {
        return 1;
    }
    if w == 1 {
        return 0;
    }
    w.count_ones() - 1
}

// Check 15 of the words in their order: the first names a place, and entries and places together are within the limit.
fn count_places(f: &[u8], at: u32, words: u32, entries: u32) -> Result<u32, Refusal>
    ensures { of_result result ≡ count_in f.now at words entries }
{
    if words == 0 {
        return Ok(0);
    }
    if places::word_at(f, at, 0) % 2 != 0 {
        return Err(Reason::Packed.at(0));
    }
    let mut total = entries as u64;
    for k in 0..words {
        let w = places::word_at(f, at, k);
        total += count_of(w) as u64;
        if (ENTRY_LIMIT as u64) < total {
            return Err(Reason::Packed.at(k as u64));
        }
    }
    Ok((total - entries as u64) as u32)
}

// Check 15: the packed table not backed; then its words.
pub fn find_packed(f: &[u8], h: Headers, d: Dynamic, r: Relocations) -> Result<Packed, Refusal>
    ensures { of_result result ≡ packed_of f.now h d r }
{
    let address = tables::value_of(f, d, DT_RELR);
    let bytes = tables::value_of(f, d, DT_RELRSZ);
    let Some(at) = tables::table_backing(f, h, address, bytes) else {
        return Err(Reason::Packed.at(0));
    };
    let words = (bytes / WORD_BYTES) as u32;
    let places = count_places(f, at, words, r.entries)?;
    Ok(Packed { at, words, places })
}
