// What a call answered and left, beside what it must.
ghost use Rattle.std.specs.Prelude.{◌≡◌, ◌≤◌, length};
ghost use Rattle.access.specs.Tables.{same};
ghost use Rattle.replay.specs.Verdicts.{alike, all_alike, text_same, verdict};

use crate::call;
use crate::call::Reply;
use crate::case::Case;
use access::span;

// Whether each part is as it must be.
#[derive(Clone, Copy)]
pub struct Alike {
    pub number: bool,
    pub place: bool,
    pub count: bool,
    pub value: bool,
    pub tag: bool,
    pub text: bool,
    pub buffer: bool,
}

// The library's comparison, in one equation.
pub fn is_same(a: &[u8], b: &[u8]) -> bool
    ensures { result ≡ same a.now b.now }
{
    check::same(a, b)
}

// The text of a span is the case's second text; no other call answers with a text.
fn same_text(c: Case, first: &[u8], second: &[u8]) -> bool
    ensures { result ≡ text_same c first.now second.now }
{
    if c.call == call::SPAN {
        return is_same(span::text_of(first, c.a, c.b), second);
    }
    true
}

fn compared(r: Reply, must: Reply, text: bool, buffer: bool) -> Alike
    ensures { result ≡ alike r must text buffer }
{
    Alike {
        number: r.number == must.number,
        place: r.place == must.place,
        count: r.count == must.count,
        value: r.value == must.value,
        tag: r.tag == must.tag,
        text,
        buffer,
    }
}

pub fn is_alike(a: Alike) -> bool
    ensures { result ≡ all_alike a }
{
    a.number & a.place & a.count & a.value & a.tag & a.text & a.buffer
}

// Makes a case's call and compares. `spare` and `work` are for a call that takes more buffers than one.
pub fn judged(
    c: Case,
    must: Reply,
    first: &[u8],
    second: &[u8],
    lent: &mut [u8],
    spare: &mut [u8],
    work: &mut [u8],
    after: &[u8],
) -> Option<Alike>
    requires { (length lent.old ≤ length spare.old) × (length second.now ≤ length spare.old) × (length second.now ≤ length work.old) }
    ensures { result ≡ verdict c must first.now second.now lent.old after.now }
{
    let r = call::made(c, first, second, lent, spare, work)?;
    let text = same_text(c, first, second);
    let buffer = is_same(lent, after);
    Some(compared(r, must, text, buffer))
}
