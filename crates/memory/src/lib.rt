// Writes to lent memory. Each function takes any position: what would fall past the end is left out.
#![tactic(auto)]

ghost use Rattle.std.specs.Prelude.{◌≡◌, replicate};
ghost use Rattle.rules.specs.Memory.{over, put, put_word};

// Bytes of a word.
const WORD_BYTES: usize = 8;

// The front of dst becomes src, as far as dst reaches. Kept: byte by byte, since std's own copy makes the archive for C need `memmove`.
pub fn copy_front(dst: &mut [u8], src: &[u8])
    ensures { dst.new ≡ over dst.old src.now }
{
    let n = dst.len().min(src.len());
    for i in 0..n {
        dst[i] = src[i];
    }
}

// The bytes of m from at on become src.
pub fn put_bytes(m: &mut [u8], at: usize, src: &[u8])
    ensures { m.new ≡ put m.old at src.now }
{
    if at <= m.len() {
        copy_front(&mut m[at..], src);
    }
}

// The count bytes of m from at on become v.
pub fn fill_at(m: &mut [u8], at: usize, count: usize, v: u8)
    ensures { m.new ≡ put m.old at (replicate count v) }
{
    if m.len() < at {
        return;
    }
    let n = count.min(m.len() - at);
    let end = at + n;
    m[at..end].fill(v);
}

// The eight bytes of m from at on become those of w, the lowest first. Where they fit they are one store.
pub fn put64(m: &mut [u8], at: usize, w: u64)
    ensures { m.new ≡ put_word m.old at w }
{
    if at <= m.len() && WORD_BYTES <= m.len() - at {
        let end = at + WORD_BYTES;
        m[at..end].copy_from_slice(&w.to_le_bytes());
        return;
    }
    put_bytes(m, at, &w.to_le_bytes());
}
