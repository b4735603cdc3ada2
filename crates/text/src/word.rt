// Words: fixed byte strings, compared at a place.
ghost use Rattle.std.specs.Prelude.{◌≡◌};
ghost use Rattle.text.specs.Words.{word_at};

use crate::bytes;

// Most words differ in their first byte, which is looked at before the comparison is called.
pub fn word(s: &[u8], at: usize, w: &[u8]) -> Option<usize>
    ensures { result ≡ word_at w.now s.now at }
{
    if bytes::peek(s, at) != bytes::peek(w, 0) {
        if 0 < w.len() {
            return None;
        }
    }
    let rest = &s[at.min(s.len())..];
    if rest.starts_with(w) {
        Some(at + w.len())
    } else {
        None
    }
}
