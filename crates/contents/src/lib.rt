// Checks 7, 15, 8, 16 and 9: the tables that the dynamic table names, and the module with them.
#![tactic(auto)]

ghost use Rattle.std.specs.Prelude.{◌≡◌};
ghost use Rattle.rules.specs.Answers.{of_result};
ghost use Rattle.contents.specs.Stages.{tables_stage};

use rules::{DT_SYMTAB, Dynamic, Headers, Module, Refusal};

// Check 7: the relocation table, then the descriptor table. Check 15: the packed table. Checks 8, 16 and 9: how many globals are described.
pub fn read_tables(f: &[u8], h: Headers, d: Dynamic) -> Result<Module, Refusal>
    ensures { of_result result ≡ tables_stage f.now h d }
{
    let relocations = tables::find_relocations(f, h, d)?;
    let descriptors = tables::find_descriptors(f, h, d)?;
    let packed = relr::find_packed(f, h, d, relocations)?;
    let count = globals::count_globals(f, h, descriptors)?;
    Ok(Module {
        headers: h,
        dynamic: d,
        symbols: entries::entry_of(f, d, DT_SYMTAB),
        relocations,
        packed,
        descriptors,
        globals: count,
    })
}
