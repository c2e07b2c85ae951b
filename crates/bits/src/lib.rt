// A map of words of memory, a bit each.
#![tactic(auto)]

ghost use Rattle.std.specs.Prelude.{◌≡◌, false, ◌+◌, ◌/◌, ◌%◌, ◌^◌, ◌<◌, eqb, length};
ghost use Rattle.bits.specs.Bits.{has, with_word};

// Bit k of a byte.
fn has_bit(byte: u8, k: u8) -> bool
    requires { k < 8 }
    ensures { result ≡ eqb (byte / 2 ^ k % 2) 1 }
{
    (byte >> k) % 2 == 1
}

// A byte with bit k, which it lacks.
#[tactic(auto, using(crate::proofs::Laws::byte_room, crate::proofs::Laws::one_shl))]
fn with_bit(byte: u8, k: u8) -> u8
    requires k_bound { k < 8 }
    requires k_value { byte / 2 ^ k % 2 ≡ 0 }
    ensures { result ≡ byte + 2 ^ k }
{
    byte + (1u8 << k)
}

// Puts a word into the map unless the map has it; whether it does.
#[tactic(auto, using(crate::proofs::Laws::zero_bit), unfolding(crate::specs::Bits::has, crate::specs::Bits::with_word))]
pub fn meet_word(map: &mut [u8], word: u64) -> bool
    requires { word / 8 < length map.old }
    ensures had { result ≡ has map.old word }
    ensures put { result ≡ false → map.new ≡ with_word map.old word }
{
    let at = (word / 8) as usize;
    let k = (word % 8) as u8;
    let old = map[at];
    if has_bit(old, k) {
        return true;
    }
    map[at] = with_bit(old, k);
    false
}
