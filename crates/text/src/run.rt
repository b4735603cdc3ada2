// Longest runs of bytes of a class that one or two tests tell, byte by byte.
ghost use Rattle.std.specs.Prelude.{◌≡◌, ◌≤◌};
ghost use Rattle.text.specs.Run.{run_to};
ghost use Rattle.text.specs.steps.Classes.{in_class};

use crate::bytes;

// The classes of which a rule takes the longest run. Those with more kinds of bytes are in `window`.
// An enum and no closure: the rules name these five, and a closure's contract would have to name the same predicate.
#[derive(Clone, Copy, Debug, PartialEq, Eq)]
pub enum Class {
    Blank,
    Space,
    Capital,
    Comment,
    Line,
}

pub fn in_class(k: Class, b: u8) -> bool
    ensures { result ≡ in_class k b }
{
    match k {
        Class::Blank => bytes::is_blank(b),
        Class::Space => bytes::is_space(b),
        Class::Capital => bytes::is_capital(b),
        Class::Comment => bytes::in_comment(b),
        Class::Line => bytes::in_line(b),
    }
}

// Where the longest run of bytes of a class ends, from a place on.
pub fn run(s: &[u8], at: usize, k: Class) -> usize
    ensures value { result ≡ run_to (in_class k) s.now at }
    ensures lower_bound { at ≤ result }
{
    for i in at..s.len() {
        if !in_class(k, s[i]) {
            return i;
        }
    }
    at.max(s.len())
}
