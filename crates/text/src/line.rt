// Gaps, commas and line ends (rule 2).
ghost use Rattle.std.specs.Prelude.{◌≡◌};
ghost use Rattle.text.specs.Lines.{gap_at, comma_at, comment_end, eol_at, line_end_at, empty_at};

use crate::run::Class;
use crate::{bytes, run};

// One blank or more.
pub fn gap(s: &[u8], at: usize) -> Option<usize>
    ensures { result ≡ gap_at s.now at }
{
    let e = run::run(s, at, Class::Blank);
    if at < e { Some(e) } else { None }
}

// A comma, with blanks around.
pub fn comma_at(s: &[u8], at: usize) -> Option<usize>
    ensures { result ≡ comma_at s.now at }
{
    let b = run::run(s, at, Class::Blank);
    if b < s.len() {
        if s[b] == b',' {
            return Some(run::run(s, b + 1, Class::Blank));
        }
    }
    None
}

// The end of a comment that starts at a place, or the place where none does.
fn comment_end(s: &[u8], at: usize) -> usize
    ensures { result ≡ comment_end s.now at }
{
    if at < s.len() {
        if s[at] == b';' {
            return run::run(s, at + 1, Class::Comment);
        }
    }
    at
}

// LF, CRLF or the end of the ledger.
fn eol(s: &[u8], at: usize) -> Option<usize>
    ensures { result ≡ eol_at s.now at }
{
    if at < s.len() {
        let b = s[at];
        if b == b'\n' {
            return Some(at + 1);
        }
        if b == b'\r' {
            let n = bytes::peek(s, at + 1);
            if n == b'\n' {
                return Some(at + 2);
            }
        }
        return None;
    }
    Some(at)
}

// Rule 2: blanks, optional comment, LF, CRLF or the end of the ledger.
pub fn line_end(s: &[u8], at: usize) -> Option<usize>
    ensures { result ≡ line_end_at s.now at }
{
    eol(s, comment_end(s, run::run(s, at, Class::Blank)))
}

// An empty or comment line, which takes at least one byte.
pub fn empty_line(s: &[u8], at: usize) -> Option<usize>
    ensures { result ≡ empty_at s.now at }
{
    if at < s.len() { line_end(s, at) } else { None }
}
