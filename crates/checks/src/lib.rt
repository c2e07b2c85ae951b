// Checks 10 to 14 of a module that was read.
#![tactic(auto)]

ghost use Rattle.std.specs.Prelude.{◌≡◌};
ghost use Rattle.rules.specs.Outcome.{good};
ghost use Rattle.rules.specs.Checks.{checked};
ghost use Rattle.rules.specs.Reader.{module_of};
ghost use Rattle.rules.specs.Examine.{facts_of};
ghost use Rattle.rules.specs.Load.{call_checks};
ghost use Rattle.rules.specs.Answers.{of_result};
ghost use Rattle.checks.specs.Lent.{lent_in};

use rules::{Facts, Module, Reason, Refusal};

// Checks 12 to 14 of a module that was read, where the walk of its items found the first address out of range.
fn check_lent(
    f: &[u8],
    m: Module,
    outside: Option<u64>,
    bias: u64,
    memory: u64,
    plane: u64,
    choices: &[u8],
) -> Result<(), Refusal>
    requires { module_of f.now ≡ good m }
    ensures { of_result result ≡ lent_in f.now m outside bias memory plane choices.now }
{
    placing::check_lending(f, m, memory, plane, bias)?;
    if let Some(position) = outside {
        return Err(Reason::Address.at(position));
    }
    tags::check_choices(f, m, choices)
}

// Checks 10 to 14 of a module that was read, and its facts.
pub fn check_load(
    f: &[u8],
    m: Module,
    bias: u64,
    memory: u64,
    plane: u64,
    choices: &[u8],
) -> Result<Facts, Refusal>
    requires { module_of f.now ≡ good m }
    ensures { of_result result ≡ checked (call_checks f.now m bias memory plane choices.now) (facts_of f.now m) }
{
    let walked = relocations::check_relocations(f, m, bias)?;
    check_lent(f, m, walked.outside, bias, memory, plane, choices)?;
    Ok(examine::facts_of(f, m, walked.words))
}
