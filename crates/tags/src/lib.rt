// Check 14, and the tag plane: each global's granules take its choice.
#![tactic(auto)]

ghost use Rattle.std.specs.Prelude.{◌≡◌, length, get_or, replicate};
ghost use Rattle.rules.specs.Outcome.{good};
ghost use Rattle.rules.specs.Descriptors.{table_start, descriptor_table, globals_of};
ghost use Rattle.rules.specs.Choices.{choices_check};
ghost use Rattle.rules.specs.Plane.{put_tag};
ghost use Rattle.rules.specs.Answers.{of_result, count_of};
ghost use Rattle.tags.specs.Walks.{bad_after, choices_from, tagged_from};

use rules::{Cursor, GRANULE, Global, Module, Reason, Refusal, UNTAGGED};

// The least and the largest choice.
const CHOICE_LEAST: u8 = 1;

const CHOICE_LIMIT: u8 = 15;

// Where reading begins.
const TABLE_START: Cursor = Cursor {
    position: 0,
    end: 0,
};

// A choice by its index.
fn choice_at(choices: &[u8], i: u32) -> u8
    ensures { result ≡ get_or choices.now i 0 }
{
    reads::byte_at(choices, i as usize)
}

// Check 14 of one choice, from the end of the global before and the choice before.
#[tactic(auto, unfolding(crate::specs::Walks::bad_after))]
fn is_bad_choice(i: u32, end: u64, last: u8, start: u64, choice: u8) -> bool
    ensures { result ≡ bad_after i end last start choice }
{
    if choice < CHOICE_LEAST || CHOICE_LIMIT < choice {
        return true;
    }
    i != 0 && end == start && last == choice
}

// Check 14 of each choice in turn, as far as globals are read.
fn walk_choices(table: &[u8], globals: u32, choices: &[u8]) -> Result<(), Refusal>
    ensures { of_result result ≡ choices_from table.now choices.now globals 0 0 table_start }
{
    let mut c = TABLE_START;
    let mut last: u8 = 0;
    for i in 0..globals {
        let Some((g, next)) = descriptors::read_global(table, c, u64::from(i)) else {
            return Ok(());
        };
        let choice = choice_at(choices, i);
        if is_bad_choice(i, c.end, last, g.start, choice) {
            return Err(Reason::Choice.at(u64::from(i)));
        }
        last = choice;
        c = next;
    }
    Ok(())
}

// Check 14: as many choices as globals, then each of them good.
pub fn check_choices(f: &[u8], m: Module, choices: &[u8]) -> Result<(), Refusal>
    requires { count_of (globals_of f.now m.headers m.descriptors) ≡ good m.globals }
    ensures { of_result result ≡ choices_check f.now m choices.now }
{
    let globals = m.globals;
    if choices.len() != globals as usize {
        return Err(Reason::Choice.at(u64::from(globals)));
    }
    let t = m.descriptors;
    let table = reads::part_of(f, t.at as usize, t.bytes as usize);
    walk_choices(table, globals, choices)
}

// The granules of a global take a tag.
fn tag_global(plane: &mut [u8], g: Global, tag: u8)
    ensures { plane.new ≡ put_tag plane.old g tag }
{
    let first = (g.start / GRANULE) as usize;
    memory::fill_at(plane, first, g.granules as usize, tag);
}

// Each global in turn takes its choice, as far as globals are read.
fn walk_tags(table: &[u8], globals: u32, choices: &[u8], plane: &mut [u8])
    ensures { plane.new ≡ tagged_from table.now choices.now plane.old globals 0 table_start }
{
    let mut c = TABLE_START;
    for i in 0..globals {
        let Some((g, next)) = descriptors::read_global(table, c, u64::from(i)) else {
            return;
        };
        let tag = choice_at(choices, i);
        tag_global(plane, g, tag);
        c = next;
    }
}

// The plane of the choices: 0 but for the granules of the globals.
pub fn tag_globals(f: &[u8], m: Module, choices: &[u8], plane: &mut [u8])
    ensures { plane.new ≡ tagged_from (descriptor_table f.now m.descriptors) choices.now (replicate (length plane.old) 0) m.globals 0 table_start }
{
    plane.fill(UNTAGGED);
    let t = m.descriptors;
    let table = reads::part_of(f, t.at as usize, t.bytes as usize);
    walk_tags(table, m.globals, choices, plane);
}
