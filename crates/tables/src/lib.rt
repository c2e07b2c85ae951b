// Check 7: the relocation and descriptor tables.
#![tactic(auto)]

ghost use Rattle.std.specs.Prelude.{◌≡◌};
ghost use Rattle.rules.specs.Dynamic.{entry_of};
ghost use Rattle.rules.specs.Tables.{or_zero, table_backing, relocations_of, descriptors_of};
ghost use Rattle.rules.specs.Answers.{of_result};

use rules::{
    DT_MEMTAG_GLOBALS, DT_MEMTAG_GLOBALSSZ, DT_RELA, DT_RELASZ, Descriptors, Dynamic, ENTRY_LIMIT,
    Headers, Reason, Refusal, Relocations,
};

// Bytes of a relocation entry.
const RELA_BYTES: u64 = 24;

// The value of a tag's entry, 0 where there is none.
pub fn value_of(f: &[u8], d: Dynamic, tag: u64) -> u64
    ensures { result ≡ or_zero (entry_of f.now d tag) }
{
    entries::entry_of(f, d, tag).unwrap_or(0)
}

// Where a table is backed; one of 0 bytes is accepted at any address.
pub fn table_backing(f: &[u8], h: Headers, address: u64, bytes: u64) -> Option<u32>
    ensures { result ≡ table_backing f.now h address bytes }
{
    if bytes == 0 {
        return Some(0);
    }
    segments::backing_of(f, h, address, bytes)
}

// Check 7: the relocation table.
pub fn find_relocations(f: &[u8], h: Headers, d: Dynamic) -> Result<Relocations, Refusal>
    ensures { of_result result ≡ relocations_of f.now h d }
{
    let address = value_of(f, d, DT_RELA);
    let bytes = value_of(f, d, DT_RELASZ);
    let Some(at) = table_backing(f, h, address, bytes) else {
        return Err(Reason::Table.at(0));
    };
    let entries = bytes / RELA_BYTES;
    if (ENTRY_LIMIT as u64) < entries {
        return Err(Reason::Table.at(0));
    }
    Ok(Relocations {
        at,
        entries: entries as u32,
    })
}

// Check 7: the descriptor table.
pub fn find_descriptors(f: &[u8], h: Headers, d: Dynamic) -> Result<Descriptors, Refusal>
    ensures { of_result result ≡ descriptors_of f.now h d }
{
    let address = value_of(f, d, DT_MEMTAG_GLOBALS);
    let bytes = value_of(f, d, DT_MEMTAG_GLOBALSSZ);
    let Some(at) = table_backing(f, h, address, bytes) else {
        return Err(Reason::Table.at(1));
    };
    Ok(Descriptors {
        at,
        bytes: bytes as u32,
    })
}
