// Accounts (rule 6).
ghost use Rattle.std.specs.Prelude.{◌≡◌, ◌+◌, ◌<◌, length, drop, get_or};
ghost use Rattle.text.specs.Bytes.{in_account};
ghost use Rattle.text.specs.Run.{run_to};
ghost use Rattle.text.specs.steps.Accounts.{parts_from, account_at};
ghost use Rattle.text.specs.steps.Windows.{goes_on, first_stop};

use crate::stop::{Cause, Stop};
use crate::{bytes, window};

// The bytes of a window, and what stands for no place in it.
const WINDOW: usize = 16;

const NONE: u8 = 16;

// Whether an account that is read as far as a byte goes on with it. The colon comes directly behind the digits.
fn goes_on(b: u8, next: u8) -> bool
    ensures { result ≡ goes_on b next }
{
    let known = bytes::is_small(b)
        | bytes::is_capital(b)
        | ((b'0' <= b) & (b <= b':'))
        | (b == b'-');
    known & ((b != b':') | bytes::starts_part(next))
}

// Where in a window the account stops. One byte behind the window is looked at.
fn stop_in(s: &[u8], at: usize) -> u8
    requires { at + 16 < length s.now }
    ensures { result ≡ first_stop (λ j. goes_on (get_or s.now (at + j) 0) (get_or s.now (at + j + 1) 0)) 16 16 }
{
    let mut first = NONE;
    for i in 0..NONE {
        let p = at + usize::from(i);
        let on = goes_on(s[p], s[p + 1]);
        first = first.min(window::stop_unless(on, NONE, i));
    }
    first
}

// The end of an account, from inside it, byte by byte.
fn short_end(s: &[u8], at: usize) -> usize
    ensures { result ≡ parts_from (drop at s.now) at }
{
    for i in at..s.len() {
        if !goes_on(s[i], bytes::peek(s, i + 1)) {
            return i;
        }
    }
    at.max(s.len())
}

// The same in windows, and byte by byte where the text has no window left.
fn parts_end(s: &[u8], at: usize) -> usize
    ensures { result ≡ parts_from (drop at s.now) at }
{
    let mut i = at;
    if WINDOW < s.len() {
        let last = s.len() - WINDOW;
        // No `for`: a turn passes a window, and where the windows end is read behind the loop.
        while i < last {
            let n = stop_in(s, i);
            if n < NONE {
                return i + usize::from(n);
            }
            i += WINDOW;
        }
    }
    short_end(s, i)
}

// Where the first part ends: at the first colon, or with the account, whose end is known.
fn first_part_end(s: &[u8], at: usize, end: usize) -> usize
    requires { end ≡ parts_from (drop at s.now) at }
    ensures { result ≡ run_to in_account s.now at }
{
    for i in at..end {
        if s[i] == b':' {
            return i;
        }
    }
    end
}

// After a first part, missing the second is hard.
pub fn account(s: &[u8], at: usize) -> Result<usize, Stop>
    ensures { result ≡ account_at s.now at }
{
    if at < s.len() {
        if bytes::starts_part(s[at]) {
            let end = parts_end(s, at + 1);
            if first_part_end(s, at + 1, end) < end {
                return Ok(end);
            }
            return Err(Stop::Hard(Cause::MissingPart, at));
        }
    }
    Err(Stop::Miss)
}
