// Bytes put at a place of the output, where there is room for all of them. The place behind them is answered at any
// rate, so one function counts and writes.
ghost use Rattle.std.specs.Prelude.{◌≡◌, [], ◌∷◌};
ghost use Rattle.rewrite.specs.steps.Putting.{Put};
ghost use Rattle.text.specs.Bytes.{between};

use row::work;

// One byte.
pub fn put(out: &mut [u8], at: usize, b: u8) -> usize
    ensures { Put out.old at (b ∷ []) out.new result }
{
    if at < out.len() {
        out[at] = b;
        return at + 1;
    }
    work::add(at, 1)
}

pub fn put_two(out: &mut [u8], at: usize, a: u8, b: u8) -> usize
    ensures { Put out.old at (a ∷ b ∷ []) out.new result }
{
    let next = put(out, at, a);
    put(out, next, b)
}

// All of a text; where there is no room for it, it is only counted.
pub fn copy(from: &[u8], out: &mut [u8], at: usize) -> usize
    ensures { Put out.old at from.now out.new result }
{
    if out.len() < at {
        return work::add(at, from.len());
    }
    if out.len() - at < from.len() {
        return work::add(at, from.len());
    }
    work::copy(from, out, at);
    at + from.len()
}

// The text of a span.
pub fn span(s: &[u8], a: usize, e: usize, out: &mut [u8], at: usize) -> usize
    ensures { Put out.old at (between s.now a e) out.new result }
{
    let end = e.min(s.len());
    if end <= a {
        return at;
    }
    copy(&s[a..end], out, at)
}
