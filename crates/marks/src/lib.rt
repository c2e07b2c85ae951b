// A map of places of eight bytes each that share no byte.
#![tactic(auto)]

ghost use Rattle.std.specs.Prelude.{◌≡◌, false, ◌+◌, ◌/◌, ◌%◌, ◌≤◌, ◌<◌, length};
ghost use Rattle.marks.specs.Map.{code_at, looks, hit, weight_of, marked, Within};

// What a code of a slot weighs in its byte.
#[tactic(auto, unfolding(crate::specs::Map::weight_of))]
fn weight(slot: usize) -> u8
    ensures { result ≡ weight_of slot }
{
    if slot % 2 == 0 { 1 } else { 16 }
}

// The code of a slot. A byte is read, since a byte was written: two at once would wait for a neighbour's mark.
#[tactic(auto, unfolding(crate::specs::Map::code_at, crate::specs::Map::weight_of))]
fn code_at(map: &[u8], slot: usize) -> u8
    requires { slot / 2 < length map.now }
    ensures { result ≡ code_at map.now slot }
{
    reads::byte(map, slot / 2) / weight(slot) % 16
}

// What the codes of the word before and of the next say of a place at an offset of its word, where none starts in its own.
#[tactic(auto, unfolding(crate::specs::Map::looks))]
fn looks_hit(a: u8, c: u8, o: u8) -> bool
    requires { o < 8 }
    ensures { result ≡ looks a 0 c o }
{
    o + 1 < a || (0 < c && c <= o)
}

// One of the places that the map has shares a byte with p. Where p starts its word, no start in the next matters.
#[tactic(auto, unfolding(crate::specs::Map::hit, crate::specs::Map::looks))]
fn is_hit(map: &[u8], p: u64) -> bool
    requires { Within map.now p }
    ensures { result ≡ hit map.now p }
{
    let slot = (p / 8) as usize;
    if code_at(map, slot + 1) != 0 {
        return true;
    }
    let a = code_at(map, slot);
    if p % 8 == 0 {
        return 1 < a;
    }
    looks_hit(a, code_at(map, slot + 2), (p % 8) as u8)
}

// Puts into the map a place that it does not hit.
#[tactic(auto, using(crate::proofs::Laws::code_fits), unfolding(crate::specs::Map::marked))]
fn mark(map: &mut [u8], p: u64)
    requires { Within map.old p × (hit map.old p ≡ false) }
    ensures { map.new ≡ marked map.old p }
{
    let slot = (p / 8) as usize + 1;
    let at = slot / 2;
    let code = (p % 8) as u8 + 1;
    let old = map[at];
    map[at] = old + code * weight(slot);
}

// Puts a place into the map unless the map hits it; whether it does.
pub fn meet(map: &mut [u8], p: u64) -> bool
    requires { Within map.old p }
    ensures hits { result ≡ hit map.old p }
    ensures marks { result ≡ false → map.new ≡ marked map.old p }
{
    if is_hit(map, p) {
        return true;
    }
    mark(map, p);
    false
}
