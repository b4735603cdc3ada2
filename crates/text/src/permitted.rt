// How many bytes a ledger may have (refusal 1), and which (refusal 2).
ghost use Rattle.std.specs.Prelude.{◌≡◌, ◌+◌, ◌≤◌, ◌<◌, min, length, get_or, take, drop};
ghost use Rattle.text.specs.Permitted.{permitted, clean};
ghost use Rattle.text.specs.steps.Stretch.{clean_end, is_plain, all_plain};

use crate::bytes;

// A ledger's bytes at the most.
pub const SIZE: usize = 16_777_216;

// The bytes that are looked at together.
const CHUNK: usize = 64;

// Whether a ledger may hold the byte at a place: 9, 10, 32 to 126, or 13 directly before 10.
fn may_stand(s: &[u8], at: usize) -> bool
    requires { at < length s.now }
    ensures { result ≡ permitted (get_or s.now at 0) (get_or s.now (at + 1) 0) }
{
    let b = s[at];
    if b' ' <= b {
        return b <= b'~';
    }
    if b == b'\n' {
        return true;
    }
    if b == b'\t' {
        return true;
    }
    if b == b'\r' {
        return bytes::peek(s, at + 1) == b'\n';
    }
    false
}

// A byte that a ledger may hold whatever follows it.
fn is_plain(b: u8) -> bool
    ensures { result ≡ is_plain b }
{
    ((b' ' <= b) & (b <= b'~')) | (b == b'\n') | (b == b'\t')
}

// Whether a chunk holds plain bytes alone. The loop has no way out, so that the compiler tests many bytes at a time.
fn plain_chunk(s: &[u8], at: usize) -> bool
    requires { at + 64 ≤ length s.now }
    ensures { result ≡ all_plain (take 64 (drop at s.now)) }
{
    let mut all = true;
    for &b in &s[at..at + CHUNK] {
        all &= is_plain(b);
    }
    all
}

// Where the bytes from a place on that may stand end, or `to` where it comes first.
fn clean_to(s: &[u8], from: usize, to: usize) -> usize
    requires { (from ≤ to) × (to ≤ length s.now) }
    ensures { result ≡ min (clean_end s.now from) to }
{
    for i in from..to {
        if !may_stand(s, i) {
            return i;
        }
    }
    to
}

// How many bytes stand before the first that a ledger may not hold: all of them where there is none. A chunk that is
// not plain, since it holds a carriage return or a byte that may not stand, is looked at byte by byte.
pub fn clean_prefix(s: &[u8]) -> usize
    ensures value { result ≡ clean s.now }
    ensures upper_bound { result ≤ length s.now }
{
    let mut i = 0;
    // No `for`: a turn passes a chunk, and where the chunks end is read behind the loop.
    while CHUNK <= s.len() - i {
        if plain_chunk(s, i) {
            i += CHUNK;
        } else {
            let e = clean_to(s, i, i + CHUNK);
            if e < i + CHUNK {
                return e;
            }
            i += CHUNK;
        }
    }
    clean_to(s, i, s.len())
}
