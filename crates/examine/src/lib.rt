// Examine: every check of a file before 12, and the facts.
#![tactic(auto)]

ghost use Rattle.std.specs.Prelude.{◌≡◌};
ghost use Rattle.rules.specs.Examine.{facts_of, examined_of};
ghost use Rattle.rules.specs.Relocations.{words_of};
ghost use Rattle.rules.specs.Answers.{of_result};

use rules::{
    DT_MEMTAG_HEAP, DT_MEMTAG_MODE, DT_MEMTAG_STACK, Facts, Mode, Module, Refusal, Switch,
};

// The facts of a module whose words the walk has counted.
pub fn facts_of(f: &[u8], m: Module, words: u32) -> Facts
    requires { words ≡ words_of f.now m }
    ensures { result ≡ facts_of f.now m }
{
    let d = m.dynamic;
    Facts {
        mode: Mode::from(entries::entry_of(f, d, DT_MEMTAG_MODE)),
        heap: Switch::from(entries::entry_of(f, d, DT_MEMTAG_HEAP)),
        stack: Switch::from(entries::entry_of(f, d, DT_MEMTAG_STACK)),
        globals: m.globals,
        words,
    }
}

// Every check before 12, and the facts.
pub fn examine_file(f: &[u8]) -> Result<Facts, Refusal>
    ensures { of_result result ≡ examined_of f.now }
{
    // The reader's answer is taken apart, and its refusal passed up unchanged: document 01's form between two layers.
    let read = elf::read_module(f);
    let Ok(m) = read else {
        return Err(read.unwrap_err());
    };
    // No address is judged here, so any bias will do.
    let walked = relocations::check_relocations(f, m, 0)?;
    Ok(facts_of(f, m, walked.words))
}
