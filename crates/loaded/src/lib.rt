// *P: a place's eight bytes as they are loaded, read from the file before memory is touched.
#![tactic(auto)]

ghost use Rattle.std.specs.Prelude.{◌≡◌, ◌<◌};
ghost use Rattle.rules.specs.Outcome.{good};
ghost use Rattle.rules.specs.Segments.{loads_check, backing_of};
ghost use Rattle.rules.specs.Image.{byte_of, loaded_in, loaded_at};

use rules::Headers;

// The byte loaded at an address; past the file part it is 0.
fn loaded_byte(f: &[u8], h: Headers, a: u64) -> u8
    ensures { result ≡ byte_of f.now (backing_of f.now h a 1) }
{
    match segments::backing_of(f, h, a, 1) {
        Some(at) => reads::byte_at(f, at as usize),
        None => 0,
    }
}

// The eight bytes one by one, where they are not all of one file part.
fn loaded_bytes(f: &[u8], h: Headers, place: u64) -> u64
    requires { place < 9223372036854775808 }
    ensures { result ≡ loaded_in f.now h 8 place }
{
    let mut v: u64 = 0;
    for k in (0..8).rev() {
        v = loaded_byte(f, h, place + k) as u64 + 256 * v;
    }
    v
}

// A place's eight bytes as they are loaded.
pub fn loaded_at(f: &[u8], h: Headers, place: u64) -> u64
    requires { (loads_check f.now h ≡ good tt) × (place < 9223372036854775808) }
    ensures { result ≡ loaded_at f.now h place }
{
    match segments::backing_of(f, h, place, 8) {
        Some(at) => reads::read64(f, at as usize),
        None => loaded_bytes(f, h, place),
    }
}
