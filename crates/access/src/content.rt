// String content without its escapes.
ghost use Rattle.std.specs.Prelude.{◌≡◌, ◌≤◌, length};
ghost use Rattle.std.proofs.lemmas.List.Edits.{sets};
ghost use Rattle.access.specs.Contents.{unescaped, content_answer, content_left};
ghost use Rattle.access.specs.steps.Measuring.{taken, slash, measured_of};

use text::bytes;
use text::stop::{NOT_VALID, Refused, TOO_SHORT, refused_at};

// How many bytes stand for the next byte of a string, where one may stand: 1 for an ordinary byte, 2 for an escape.
fn taken_by(ordinary: bool, b: u8, next: u8) -> Option<usize>
    ensures { result ≡ taken ordinary b next }
{
    if bytes::is_ordinary(b) {
        return Some(1);
    }
    if ordinary && b == b'\\' && bytes::is_escaped(next) {
        Some(2)
    } else {
        None
    }
}

// How many bytes valid content has without its escapes.
fn measure(content: &[u8]) -> Option<usize>
    ensures { result ≡ measured_of content.now }
{
    let mut i = 0;
    let mut count = 0;
    let mut ordinary = false;
    // A turn takes one byte, or an escape's two.
    while i < content.len() {
        let b = content[i];
        let k = taken_by(ordinary, b, bytes::peek(content, i + 1))?;
        ordinary = k == 1;
        i += k;
        count += 1;
    }
    Some(count)
}

// How many bytes are left out before the one that is kept: 1 at a backslash.
fn skipped(b: u8) -> usize
    ensures { result ≡ slash b }
{
    usize::from(b == b'\\')
}

// Each byte but an escape's backslash, so no `copy_from_slice`, into the front of a buffer.
fn copied(content: &[u8], buffer: &mut [u8])
    requires { length (unescaped content.now) ≤ length buffer.old }
    ensures { buffer.new ≡ sets buffer.old 0 (unescaped content.now) }
{
    let mut i = 0;
    let mut n = 0;
    // A turn takes one byte, or an escape's two.
    while i < content.len() {
        let at = i + skipped(content[i]);
        if at < content.len() {
            buffer[n] = content[at];
            n += 1;
            i = at + 1;
        } else {
            return;
        }
    }
}

// 10 for content that is not valid, then 9 for a short buffer.
pub fn unescape(content: &[u8], buffer: &mut [u8]) -> Result<usize, Refused>
    ensures answer { result ≡ content_answer content.now (length buffer.old) }
    ensures bytes { buffer.new ≡ content_left content.now buffer.old }
{
    let n = measure(content).ok_or(refused_at(NOT_VALID, 0))?;
    if buffer.len() < n {
        return Err(Refused {
            number: TOO_SHORT,
            place: 0,
            count: n,
        });
    }
    copied(content, buffer);
    Ok(n)
}
