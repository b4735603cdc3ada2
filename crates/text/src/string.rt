// Strings (rule 5).
ghost use Rattle.std.specs.Prelude.{◌≡◌, false, ◌<◌, length, drop};
ghost use Rattle.text.specs.Strings.{str_from, string_at};

use crate::bytes;

// The rest of a string, from after its opening quote: an escape needs an ordinary byte before it, so it stands neither
// there nor where the last escape ended. The text's last byte, behind which no escaped one comes, is looked at by
// itself.
fn string_rest(s: &[u8], at: usize) -> Option<usize>
    requires { 0 < length s.now }
    ensures { result ≡ str_from false (drop at s.now) at }
{
    let last = s.len() - 1;
    let mut start = at;
    let mut i = at;
    // No `for`: a turn passes one byte or the two of an escape.
    while i < last {
        let b = s[i];
        if b == b'"' {
            return Some(i + 1);
        }
        if b == b'\\' {
            if i == start {
                return None;
            }
            if bytes::is_escaped(s[i + 1]) {
                i += 2;
                start = i;
            } else {
                return None;
            }
        } else {
            i += 1;
        }
    }
    if i == last {
        if s[i] == b'"' {
            return Some(i + 1);
        }
    }
    None
}

pub fn string(s: &[u8], at: usize) -> Option<usize>
    ensures { result ≡ string_at s.now at }
{
    if at < s.len() {
        if s[at] == b'"' {
            return string_rest(s, at + 1);
        }
    }
    None
}
