// Check 6: the dynamic entries.
#![tactic(auto)]

ghost use Rattle.std.specs.Prelude.{◌≡◌, ltb};
ghost use Rattle.std.specs.Bool.{then_some};
ghost use Rattle.rules.specs.First.{faultless, some_below};
ghost use Rattle.rules.specs.Dynamic.{tag_at, value_at, known_tags, row_at, allows, row_of, tag_before, bad_entry, has_tag, differ};
ghost use Rattle.rules.specs.Dynamic.{partnerless, entries_check, entry_of};
ghost use Rattle.rules.specs.Answers.{of_result};

use rules::{
    Allowed, DT_JMPREL, DT_MEMTAG_GLOBALS, DT_MEMTAG_GLOBALSSZ, DT_MEMTAG_HEAP, DT_MEMTAG_MODE,
    DT_MEMTAG_STACK, DT_REL, DT_RELA, DT_RELAENT, DT_RELASZ, DT_RELR, DT_RELRENT, DT_RELRSZ,
    DT_SYMENT, DT_SYMTAB, Dynamic, Known, Reason, Refusal,
};

// The tags that are known, with their groups and the values that are allowed. Rows of one group are partners; a group goes by its
// first tag.
const KNOWN: [Known; 15] = [
    Known {
        tag: DT_SYMTAB,
        group: DT_SYMTAB,
        allowed: Allowed::Any,
    },
    Known {
        tag: DT_SYMENT,
        group: DT_SYMTAB,
        allowed: Allowed::Exactly(24),
    },
    Known {
        tag: DT_RELA,
        group: DT_RELA,
        allowed: Allowed::Any,
    },
    Known {
        tag: DT_RELASZ,
        group: DT_RELA,
        allowed: Allowed::Multiple(24),
    },
    Known {
        tag: DT_RELAENT,
        group: DT_RELA,
        allowed: Allowed::Exactly(24),
    },
    Known {
        tag: DT_REL,
        group: DT_REL,
        allowed: Allowed::Never,
    },
    Known {
        tag: DT_JMPREL,
        group: DT_JMPREL,
        allowed: Allowed::Never,
    },
    Known {
        tag: DT_RELR,
        group: DT_RELR,
        allowed: Allowed::Any,
    },
    Known {
        tag: DT_RELRSZ,
        group: DT_RELR,
        allowed: Allowed::Multiple(8),
    },
    Known {
        tag: DT_RELRENT,
        group: DT_RELR,
        allowed: Allowed::Exactly(8),
    },
    Known {
        tag: DT_MEMTAG_MODE,
        group: DT_MEMTAG_MODE,
        allowed: Allowed::Flag,
    },
    Known {
        tag: DT_MEMTAG_HEAP,
        group: DT_MEMTAG_HEAP,
        allowed: Allowed::Flag,
    },
    Known {
        tag: DT_MEMTAG_STACK,
        group: DT_MEMTAG_STACK,
        allowed: Allowed::Flag,
    },
    Known {
        tag: DT_MEMTAG_GLOBALS,
        group: DT_MEMTAG_GLOBALS,
        allowed: Allowed::Any,
    },
    Known {
        tag: DT_MEMTAG_GLOBALSSZ,
        group: DT_MEMTAG_GLOBALS,
        allowed: Allowed::Any,
    },
];

// A value is allowed by a row.
fn is_allowed(a: Allowed, v: u64) -> bool
    ensures { result ≡ allows a v }
{
    match a {
        Allowed::Any => true,
        Allowed::Exactly(n) => v == n,
        Allowed::Multiple(n) => v.is_multiple_of(n),
        Allowed::Flag => v < 2,
        Allowed::Never => false,
    }
}

// The row of a tag, where it is known.
fn find_row(tag: u64) -> Option<Known>
    ensures { result ≡ then_some (ltb (row_of known_tags tag) 15) (row_at known_tags (row_of known_tags tag)) }
{
    for &row in &KNOWN {
        if row.tag == tag {
            return Some(row);
        }
    }
    None
}

fn tag_at(f: &[u8], d: Dynamic, i: u32) -> u64
    ensures { result ≡ tag_at f.now d i }
{
    reads::read64(f, d.at as usize + 16 * (i as usize))
}

fn value_at(f: &[u8], d: Dynamic, i: u32) -> u64
    ensures { result ≡ value_at f.now d i }
{
    reads::read64(f, d.at as usize + 16 * (i as usize) + 8)
}

// The first of the first n entries that has a tag.
fn find_tag(f: &[u8], d: Dynamic, tag: u64, n: u32) -> Option<u32>
    ensures { result ≡ then_some (ltb (tag_before f.now d tag n) n) (tag_before f.now d tag n) }
{
    for i in 0..n {
        if tag_at(f, d, i) == tag {
            return Some(i);
        }
    }
    None
}

// Check 6, of one entry: its value is not allowed, or an earlier entry has its tag.
fn is_bad_entry(f: &[u8], d: Dynamic, i: u32) -> bool
    ensures { result ≡ bad_entry known_tags f.now d i }
{
    let tag = tag_at(f, d, i);
    let Some(row) = find_row(tag) else {
        return false;
    };
    if is_allowed(row.allowed, value_at(f, d, i)) {
        return find_tag(f, d, tag, i).is_some();
    }
    true
}

// Some entry has a tag.
fn has_tag(f: &[u8], d: Dynamic, tag: u64) -> bool
    ensures { result ≡ has_tag f.now d tag }
{
    find_tag(f, d, tag, d.entries).is_some()
}

// A row's tag is there and its group's first is not, or the other way round.
fn is_partnerless(f: &[u8], d: Dynamic, row: Known) -> bool
    ensures { result ≡ differ (has_tag f.now d row.tag) (has_tag f.now d row.group) }
{
    has_tag(f, d, row.tag) != has_tag(f, d, row.group)
}

// Check 6: the entries, refused at the first bad one.
fn check_each(f: &[u8], d: Dynamic) -> Result<(), Refusal>
    ensures { of_result result ≡ faultless 6 (bad_entry known_tags f.now d) d.entries }
{
    for i in 0..d.entries {
        if is_bad_entry(f, d, i) {
            return Err(Reason::Entry.at(i as u64));
        }
    }
    Ok(())
}

// Check 6: a partner is missing.
fn lacks_partner(f: &[u8], d: Dynamic) -> bool
    ensures { result ≡ some_below (partnerless known_tags f.now d) 15 }
{
    for &row in &KNOWN {
        if is_partnerless(f, d, row) {
            return true;
        }
    }
    false
}

// Check 6: bad or repeated entries; then a partner missing.
pub fn check_entries(f: &[u8], d: Dynamic) -> Result<(), Refusal>
    ensures { of_result result ≡ entries_check known_tags f.now d }
{
    check_each(f, d)?;
    if lacks_partner(f, d) {
        return Err(Reason::Entry.at(d.entries as u64));
    }
    Ok(())
}

// The value of a tag's entry.
pub fn entry_of(f: &[u8], d: Dynamic, tag: u64) -> Option<u64>
    ensures { result ≡ entry_of f.now d tag }
{
    let i = find_tag(f, d, tag, d.entries)?;
    Some(value_at(f, d, i))
}
