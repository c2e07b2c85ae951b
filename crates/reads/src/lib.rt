// Total reads of a list of bytes, and exact comparisons of sums.
#![tactic(auto)]

ghost use Rattle.std.specs.Prelude.{◌≡◌, ◌&&◌, ◌+◌, ◌≤◌, ◌<◌, leb, length, get_or};
ghost use Rattle.rules.specs.Bytes.{le, part};
ghost use Rattle.rules.specs.Segments.{covers};
ghost use Rattle.reads.specs.Bytes.{Stands};

// A byte of the list. This and the numbers of two, four and eight bytes have no test: a caller knows that they do not pass the end.
pub fn byte(s: &[u8], at: usize) -> u8
    requires { at < length s.now }
    ensures { result ≡ get_or s.now at 0 }
{
    s[at]
}

// The N bytes from a position on.
fn bytes<const N: usize>(s: &[u8], at: usize) -> [u8; N]
    requires { at + N ≤ length s.now }
    ensures { Stands N result s.now at }
{
    let mut front = [0; N];
    let end = at + N;
    front.copy_from_slice(&s[at..end]);
    front
}

// The number of the two bytes from a position on.
pub fn le16(s: &[u8], at: usize) -> u16
    requires { at + 2 ≤ length s.now }
    ensures { result ≡ le 2 s.now at }
{
    u16::from_le_bytes(bytes(s, at))
}

// Of four.
pub fn le32(s: &[u8], at: usize) -> u32
    requires { at + 4 ≤ length s.now }
    ensures { result ≡ le 4 s.now at }
{
    u32::from_le_bytes(bytes(s, at))
}

// Of eight.
pub fn le64(s: &[u8], at: usize) -> u64
    requires { at + 8 ≤ length s.now }
    ensures { result ≡ le 8 s.now at }
{
    u64::from_le_bytes(bytes(s, at))
}

// The byte at a position, 0 past the end.
pub fn byte_at(s: &[u8], at: usize) -> u8
    ensures { result ≡ get_or s.now at 0 }
{
    if at < s.len() {
        return s[at];
    }
    0
}

// The N bytes from a position on, of which fewer than N are there: the others are 0. Rare, and not inlined, so that its callers stay small.
#[cold]
#[inline(never)]
fn cut_bytes<const N: usize>(s: &[u8], at: usize) -> [u8; N]
    ensures { Stands N result s.now at }
{
    let mut front = [0; N];
    let rest = part_of(s, at, N);
    front[..rest.len()].copy_from_slice(rest);
    front
}

// The N bytes from a position on; those past the end are 0. One test of the position where they do not pass it.
fn padded_bytes<const N: usize>(s: &[u8], at: usize) -> [u8; N]
    ensures { Stands N result s.now at }
{
    if N <= s.len() && at <= s.len() - N {
        return bytes(s, at);
    }
    cut_bytes(s, at)
}

// The number of the two bytes from a position on; bytes past the end are 0.
pub fn read16(s: &[u8], at: usize) -> u16
    ensures { result ≡ le 2 s.now at }
{
    u16::from_le_bytes(padded_bytes(s, at))
}

// Of four.
pub fn read32(s: &[u8], at: usize) -> u32
    ensures { result ≡ le 4 s.now at }
{
    u32::from_le_bytes(padded_bytes(s, at))
}

// Of eight.
pub fn read64(s: &[u8], at: usize) -> u64
    ensures { result ≡ le 8 s.now at }
{
    u64::from_le_bytes(padded_bytes(s, at))
}

// The n bytes from a position on, fewer where the end comes first.
pub fn part_of(s: &[u8], at: usize, n: usize) -> &[u8]
    ensures { result.now ≡ part s.now at n }
{
    let len = s.len();
    if len <= at {
        return &s[len..len];
    }
    if len - at <= n {
        return &s[at..len];
    }
    let end = at + n;
    &s[at..end]
}

// a + b is at most a limit, as an exact sum.
pub fn sum_within(a: u64, b: u64, limit: u64) -> bool
    ensures { result ≡ leb (a + b) limit }
{
    a <= limit && b <= limit - a
}

// The size bytes from start hold the n bytes from a, as exact sums.
#[tactic(auto, unfolding(rules::specs::Segments::covers))]
pub fn holds_range(start: u64, size: u64, a: u64, n: u64) -> bool
    ensures { result ≡ covers start size a n }
{
    start <= a && n <= size && a - start <= size - n
}
