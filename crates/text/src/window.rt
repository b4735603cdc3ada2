// Longest runs of the classes with more kinds of bytes (rules 7, 14 and 16), a window of bytes at a time. The loop over
// a window has no way out, so that the compiler tests many bytes at once.
ghost use Rattle.std.specs.Prelude.{◌≡◌, cond, ◌+◌, ◌≤◌, min, length, get_or};
ghost use Rattle.text.specs.Bytes.{in_currency, in_tag, in_link};
ghost use Rattle.text.specs.Run.{run_to};
ghost use Rattle.text.specs.steps.Windows.{is_among, first_stop};

use crate::bytes;

// The bytes of a window, and what stands for no place in it.
const WINDOW: usize = 32;

const NONE: u8 = 32;

// The place where a run stops, or what stands for none where it goes on. A function of its own: only so does the
// compiler see a minimum over the window, for which it needs no branch.
pub fn stop_unless(on: bool, none: u8, place: u8) -> u8
    ensures { result ≡ cond on none place }
{
    if on { none } else { place }
}

// A capital, digit, `-`, `_`, one of two marks, or a small letter from a given one on.
fn is_among(b: u8, small: u8, x: u8, y: u8) -> bool
    ensures { result ≡ is_among small x y b }
{
    bytes::starts_part(b)
        | ((small <= b) & (b <= b'z'))
        | (b == b'-')
        | (b == b'_')
        | (b == x)
        | (b == y)
}

// Where in a window the run stops.
fn stop_in(s: &[u8], at: usize, small: u8, x: u8, y: u8) -> u8
    requires { at + 32 ≤ length s.now }
    ensures { result ≡ first_stop (λ j. is_among small x y (get_or s.now (at + j) 0)) 32 32 }
{
    let mut first = NONE;
    for i in 0..NONE {
        let on = is_among(s[at + usize::from(i)], small, x, y);
        first = first.min(stop_unless(on, NONE, i));
    }
    first
}

// The run byte by byte.
fn short_run(s: &[u8], at: usize, small: u8, x: u8, y: u8) -> usize
    ensures { result ≡ run_to (is_among small x y) s.now at }
{
    for i in at..s.len() {
        if !is_among(s[i], small, x, y) {
            return i;
        }
    }
    at.max(s.len())
}

// The run in windows, and byte by byte where the text has no window left.
fn run_of(s: &[u8], at: usize, small: u8, x: u8, y: u8) -> usize
    ensures { result ≡ run_to (is_among small x y) s.now at }
{
    let mut i = at;
    if WINDOW <= s.len() {
        let last = s.len() - WINDOW;
        // No `for`: a turn passes a window, and where the windows end is read behind the loop.
        while i <= last {
            let n = stop_in(s, i, small, x, y);
            if n < NONE {
                return i + usize::from(n);
            }
            i += WINDOW;
        }
    }
    short_run(s, i, small, x, y)
}

// Rule 7. From `{` on there is no small letter.
pub fn currency_run(s: &[u8], at: usize) -> usize
    ensures value { result ≡ run_to in_currency s.now at }
    ensures lower_bound { at ≤ result }
{
    run_of(s, at, b'{', b'.', b'\'')
}

// Rules 14 and 16.
pub fn tag_run(s: &[u8], at: usize) -> usize
    ensures value { result ≡ run_to in_tag s.now at }
    ensures lower_bound { at ≤ result }
{
    run_of(s, at, b'a', b'-', b'_')
}

// Rule 14.
pub fn link_run(s: &[u8], at: usize) -> usize
    ensures value { result ≡ run_to in_link s.now at }
    ensures lower_bound { at ≤ result }
{
    run_of(s, at, b'a', b'_', b'.')
}
