// The packed places one after the other: the words of a packed table, read as their places are asked for.
#![tactic(auto)]

ghost use Rattle.std.specs.Prelude.{◌≡◌, ◌%◌, ◌<◌, length};
ghost use Rattle.rules.specs.Packed.{packed_word};
ghost use Rattle.places.specs.Ahead.{ahead, Standing, Next};

use rules::Packed;

// Bytes of a packed word, and of a place.
pub const WORD_BYTES: u64 = 8;

// Bits of a bitmap that name places.
const BITMAP_BITS: u64 = 63;

// Where reading packed places stands.
#[derive(Clone, Copy)]
pub struct Run {
    // How many words have been read.
    pub words: u32,
    // The bits of the last bitmap that have not been seen, the lowest first, and how many they are.
    pub rest: u64,
    pub left: u64,
    // The place that the lowest of them names; with none left, where the run stands.
    pub at: u64,
    // The place found last.
    pub place: u64,
}

// Before the first place.
pub const START: Run = Run {
    words: 0,
    rest: 0,
    left: 0,
    at: 0,
    place: 0,
};

// The word of an index of the table at a position of the file.
pub fn word_at(f: &[u8], at: u32, k: u32) -> u64
    ensures { result ≡ packed_word f.now at k }
{
    let position = u64::from(at) + WORD_BYTES * u64::from(k);
    reads::read64(f, position as usize)
}

// The next place. Words that name none are passed over. Always inlined, so that a walk keeps its run in registers.
#[inline(always)]
pub fn next_place(f: &[u8], t: Packed, c: Run) -> Run
    requires { Standing f.now t c × (0 < length (ahead f.now t c)) }
    ensures { Next f.now t c result }
{
    let mut words = c.words;
    let mut rest = c.rest;
    let mut left = c.left;
    let mut place = c.at;
    while rest == 0 {
        let w = word_at(f, t.at, words);
        let run = place + WORD_BYTES * left;
        words += 1;
        if w % 2 == 0 {
            return Run {
                words,
                rest: 0,
                left: 0,
                at: w.wrapping_add(WORD_BYTES),
                place: w,
            };
        }
        rest = w / 2;
        left = BITMAP_BITS;
        place = run;
    }
    let skipped = u64::from(rest.trailing_zeros());
    let named = rest >> skipped;
    let left = left - skipped;
    let place = place + WORD_BYTES * skipped;
    Run {
        words,
        rest: named / 2,
        left: left - 1,
        at: place + WORD_BYTES,
        place,
    }
}
