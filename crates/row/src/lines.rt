// The lines of rows: one plus the line feeds before a row's start.
ghost use Rattle.std.specs.Prelude.{◌≡◌, cond, ◌+◌, ◌≤◌, ◌<◌, ltb, eqb, length, take, drop};
ghost use Rattle.text.specs.Bytes.{in_line};
ghost use Rattle.text.specs.Run.{run_to};
ghost use Rattle.row.specs.Row.{feeds};
ghost use Rattle.row.specs.steps.Sweep.{LineOf, lines_set};

use crate::field;
use crate::table::{LINE, START, WIDTH};
use text::run;
use text::run::Class;

// The line in which the last row started: where it starts, where its line feed or the end of the text stands, and its
// number.
#[derive(Clone, Copy)]
struct Line {
    from: usize,
    stop: usize,
    number: usize,
}

// So many bytes have their line feeds counted in a byte.
const COUNTED: usize = 240;

// A line feed.
fn is_feed(b: u8) -> bool
    ensures { result ≡ eqb b 10 }
{
    b == b'\n'
}

// Whether a line feed stands in eight bytes: one test without a way out, so that the compiler looks at them together.
fn feed_in_eight(s: &[u8], i: usize) -> bool
    requires { i + 8 ≤ length s.now }
    ensures { result ≡ ltb 0 (feeds (take 8 (drop i s.now))) }
{
    is_feed(s[i])
        | is_feed(s[i + 1])
        | is_feed(s[i + 2])
        | is_feed(s[i + 3])
        | is_feed(s[i + 4])
        | is_feed(s[i + 5])
        | is_feed(s[i + 6])
        | is_feed(s[i + 7])
}

// A place from which the line ends where it does from `from`: eight bytes at a time without a line feed are passed.
fn skipped(s: &[u8], from: usize) -> usize
    requires { from ≤ length s.now }
    ensures { run_to in_line s.now result ≡ run_to in_line s.now from }
{
    let mut i = from;
    // No `for`: a turn passes eight bytes, and where they end is the answer.
    while i + 8 <= s.len() {
        if feed_in_eight(s, i) {
            return i;
        }
        i += 8;
    }
    i
}

// The line that starts at `from`.
fn line_from(s: &[u8], from: usize, number: usize) -> Line
    requires { (from ≤ length s.now) × (number ≡ 1 + feeds (take from s.now)) }
    ensures { LineOf s.now result × (result.from ≡ from) }
{
    let stop = run::run(s, skipped(s, from), Class::Line);
    Line { from, stop, number }
}

// The line of a start, from a line on that starts no later.
fn line_at(s: &[u8], first: Line, start: usize) -> Line
    requires { LineOf s.now first × (first.from ≤ start) }
    ensures { LineOf s.now result × (result.number ≡ 1 + feeds (take start s.now)) }
{
    let mut l = first;
    // A turn takes a whole line: no step that a range could count.
    while l.stop < start {
        if l.stop < s.len() {
            l = line_from(s, l.stop + 1, l.number + 1);
        } else {
            return l;
        }
    }
    l
}

// The lines of the first n rows of a table are set, in one sweep over s where rows stand in order of start.
pub fn set_lines(s: &[u8], table: &mut [u8], n: usize)
    ensures { table.new ≡ lines_set s.now n table.old }
{
    let mut l = line_from(s, 0, 1);
    for k in 0..n.min(table.len() / WIDTH) {
        let row = k * WIDTH;
        let start = field::get_four(table, row + START);
        if start < l.from {
            l = line_from(s, 0, 1);
        }
        l = line_at(s, l, start);
        field::put_four(table, row + LINE, l.number);
    }
}

// 1 for a line feed.
fn one_feed(b: u8) -> u8
    ensures { result ≡ cond (eqb b 10) 1 0 }
{
    if is_feed(b) { 1 } else { 0 }
}

// The line feeds of a short text, counted in a byte: so the compiler looks at sixteen bytes together.
fn few_feeds(s: &[u8]) -> u8
    requires { length s.now ≤ 255 }
    ensures { result ≡ feeds s.now }
{
    let mut n = 0;
    for &b in s {
        n += one_feed(b);
    }
    n
}

// The line feeds of a text.
pub fn feeds_of(s: &[u8]) -> usize
    ensures { (result ≡ feeds s.now) × (result ≤ length s.now) }
{
    let mut n = 0;
    for part in s.chunks(COUNTED) {
        n += usize::from(few_feeds(part));
    }
    n
}
