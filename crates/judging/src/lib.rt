// Checks 10, 11 and 13 of one item by itself: an entry of the RELA table, or a packed place.
#![tactic(auto)]

ghost use Rattle.std.specs.Prelude.{◌≡◌, true, ℕ, ◌≤◌, ◌<◌};
ghost use Rattle.rules.specs.Outcome.{good};
ghost use Rattle.rules.specs.Segments.{loads_check};
ghost use Rattle.rules.specs.Relocations.{place_at};
ghost use Rattle.rules.specs.Addresses.{address_of, out_of_range};
ghost use Rattle.segments.specs.Spans.{Sound};
ghost use Rattle.judging.specs.Judges.{Fitted, Judges, JudgesPacked};

use rules::{Headers, Module, Reason, Target};
use segments::Span;

// A word that is relocated.
#[derive(Clone, Copy)]
pub struct Word {
    pub place: u64,
    // Its address is out of range.
    pub outside: bool,
    // The PT_LOAD that holds its place.
    pub span: Span,
}

// An address out of range.
fn is_outside(bias: u64, t: Target, addend: u64) -> bool
    ensures { result ≡ out_of_range (address_of bias t addend) }
{
    words::address_of(bias, t, addend).is_none()
}

// The PT_LOAD that holds a place that fits; None where it does not.
#[tactic(auto, unfolding(rules::specs::Relocations::place_fits))]
fn hold_place(f: &[u8], h: Headers, last: Span, place: u64) -> Option<Span>
    requires { Sound f.now h true last }
    ensures { Fitted f.now h place result }
{
    if place % 8 == 0 {
        segments::hold(f, h, true, last, place, 8)
    } else {
        None
    }
}

// An entry of the RELA table, but for the places of the items before it. A skipped one has no word. last is the PT_LOAD found last.
pub fn judge_entry(
    f: &[u8],
    m: Module,
    bias: u64,
    last: Span,
    i: u32,
) -> Result<Option<Word>, Reason>
    requires { Sound f.now m.headers true last × (i < m.relocations.entries) }
    ensures { Judges f.now m bias i result }
{
    let r = m.relocations;
    let kind = items::kind_at(f, r, i);
    if kind == 0 {
        return Ok(None);
    }
    let h = m.headers;
    let symbol = items::symbol_at(f, r, i);
    let t = items::find_target(f, h, m.symbols, kind, symbol);
    if items::is_barred(t) {
        return Err(Reason::Target);
    }
    let place = items::place_at(f, r, i);
    let Some(span) = hold_place(f, h, last, place) else {
        return Err(Reason::Place);
    };
    let addend = items::addend_at(f, r, i);
    let outside = is_outside(bias, t, addend);
    Ok(Some(Word {
        place,
        outside,
        span,
    }))
}

// A packed place, but for the places of the items before it. last is the PT_LOAD found last.
pub fn judge_packed(f: &[u8], m: Module, bias: u64, last: Span, place: u64) -> Result<Word, Reason>
    requires { Sound f.now m.headers true last × (loads_check f.now m.headers ≡ good tt) }
    ensures { (i : ℕ) → m.relocations.entries ≤ i → place_at f.now m i ≡ place → JudgesPacked f.now m bias i result }
{
    let h = m.headers;
    let Some(span) = hold_place(f, h, last, place) else {
        return Err(Reason::Place);
    };
    let loaded = loaded::loaded_at(f, h, place);
    let outside = is_outside(bias, Target::Defined(loaded), 0);
    Ok(Word {
        place,
        outside,
        span,
    })
}
