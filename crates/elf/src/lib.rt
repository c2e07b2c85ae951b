// The ELF reader as a whole: checks 1 to 7, 15, 8, 16 and 9 of a file.
#![tactic(auto)]

ghost use Rattle.std.specs.Prelude.{◌≡◌};
ghost use Rattle.rules.specs.Reader.{module_of};
ghost use Rattle.rules.specs.Answers.{of_result};

use rules::{Module, Refusal};

// Checks 1 to 7, 15, 8, 16 and 9: the module of a file.
pub fn read_module(f: &[u8]) -> Result<Module, Refusal>
    ensures { of_result result ≡ module_of f.now }
{
    // Kept: this answer is taken apart, and its refusal passed up unchanged, in document 01's form between two layers.
    let read = headers::read_headers(f);
    let Ok(headers) = read else {
        return Err(read.unwrap_err());
    };
    pt_loads::check_loads(f, headers)?;
    let dynamic = dynamic::find_dynamic(f, headers)?;
    entries::check_entries(f, dynamic)?;
    contents::read_tables(f, headers, dynamic)
}
