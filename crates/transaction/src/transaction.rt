// Transactions (rule 11). After the flag or `txn` all is hard, so rows are written as they are read.
ghost use Rattle.std.specs.Prelude.{◌≡◌, ◌≤◌, ◌<◌, [], ◌∷◌, length};
ghost use Rattle.amount.specs.Details.{span};
ghost use Rattle.amount.specs.steps.Answers.{one_of};
ghost use Rattle.row.specs.steps.Pouring.{pour_at};
ghost use Rattle.row.specs.steps.Writing.{laid, noted, Did, Writable, Readable};
ghost use Rattle.transaction.specs.Transaction.{opening, mark, marks, transaction};
ghost use Rattle.transaction.specs.steps.Heads.{txn_ran, link_mark, gap_string, second_text, texts_of, marked_of, texted_of, head_of};

use amount::detail::Detail;
use amount::{detail, kind};
use posting::{body, metadata};
use row::writer;
use row::writer::Out;
use text::run::Class;
use text::stop::{Cause, Reading, Stop};
use text::{bytes, line, run, string, tag, word};

// A row that spans a text.
fn emit_span(kind: usize, start: usize, end: usize, base: usize, table: &mut [u8], out: Out) -> Out
    requires { Writable 1 base out }
    ensures answer { result ≡ noted out (span kind start end) }
    ensures rows { table.new ≡ pour_at out.rows (laid base (span kind start end) ∷ []) table.old }
{
    writer::emit(table, base, out, detail::named(kind, start, end, 0, 0))
}

// `txn`, which has no row.
fn txn_at(s: &[u8], at: usize, out: Out) -> Reading<Out>
    ensures { result ≡ txn_ran s.now at out }
{
    let e = word::word(s, at, b"txn").ok_or(Stop::Miss)?;
    Ok((e, out))
}

// A flag, any byte that is no small letter, or `txn`.
fn opening_at(s: &[u8], at: usize, base: usize, table: &mut [u8], out: Out) -> Reading<Out>
    requires { Writable 1 base out }
    ensures { Did base (opening s.now at) out table.old table.new result }
{
    let b = *s.get(at).ok_or(Stop::Miss)?;
    if b == 0 || bytes::is_small(b) {
        return txn_at(s, at, out);
    }
    let e = at + 1;
    Ok((e, emit_span(kind::FLAG, at, e, base, table, out)))
}

// A gap and a string with its quotes: where the string starts and ends.
fn gap_string(s: &[u8], at: usize) -> Option<(usize, usize)>
    ensures { result ≡ gap_string s.now at }
{
    let a = line::gap(s, at)?;
    let e = string::string(s, a)?;
    Some((a, e))
}

// After a first string that spans a to e with its quotes: optionally gap and a second; then the first is the payee.
fn second_text(
    s: &[u8],
    a: usize,
    e: usize,
    base: usize,
    table: &mut [u8],
    out: Out,
) -> Reading<Out>
    requires { Writable 2 base out × (a < length s.now) × (1 ≤ e) }
    ensures { Did base (second_text s.now a e) out table.old table.new result }
{
    match gap_string(s, e) {
        Some((b, f)) => {
            let o = emit_span(kind::PAYEE, a + 1, e - 1, base, table, out);
            let p = emit_span(kind::NARRATION, b + 1, f - 1, base, table, o);
            Ok((f, p))
        }
        None => {
            let o = emit_span(kind::NARRATION, a + 1, e - 1, base, table, out);
            Ok((e, o))
        }
    }
}

// Optionally gap and string, and optionally gap and a second.
fn texts_at(s: &[u8], at: usize, base: usize, table: &mut [u8], out: Out) -> Reading<Out>
    requires { Writable 2 base out }
    ensures { Did base (texts_of s.now at) out table.old table.new result }
{
    match gap_string(s, at) {
        Some((a, e)) => second_text(s, a, e, base, table, out),
        None => Ok((at, out)),
    }
}

fn link_mark(s: &[u8], b: usize) -> Reading<Detail>
    ensures { result ≡ one_of (link_mark s.now b) }
{
    let e = tag::link(s, b).ok_or(Stop::Miss)?;
    Ok((e, detail::named(kind::LINK, b + 1, e, 0, 0)))
}

// A tag or a link, with optional blanks before it.
fn mark_at(s: &[u8], at: usize) -> Reading<Detail>
    ensures { result ≡ one_of (mark s.now at) }
{
    let b = run::run(s, at, Class::Blank);
    match tag::tag(s, b) {
        Some(e) => Ok((e, detail::named(kind::TAG, b + 1, e, 0, 0))),
        None => link_mark(s, b),
    }
}

// Tags and links.
fn marks_at(s: &[u8], at: usize, base: usize, table: &mut [u8], out: Out) -> Reading<Out>
    requires { Readable base s.now at out }
    ensures { Did base (marks s.now at) out table.old table.new result }
{
    let mut i = at;
    let mut o = out;
    // A turn goes on by the bytes that it read: no step that a range could count.
    while i < s.len() {
        match mark_at(s, i) {
            Ok((e, d)) => {
                o = writer::emit(table, base, o, d);
                i = e;
            }
            Err(Stop::Miss) => return Ok((i, o)),
            Err(hard) => return Err(hard),
        }
    }
    Ok((i, o))
}

// After the strings: tags and links, line end (required), metadata.
fn marked_at(s: &[u8], at: usize, base: usize, table: &mut [u8], out: Out) -> Reading<Out>
    requires { Readable base s.now at out }
    ensures { Did base (marked_of s.now at) out table.old table.new result }
{
    let (e, o) = marks_at(s, at, base, table, out)?;
    let f = line::line_end(s, e).ok_or(Stop::Hard(Cause::Missing, e))?;
    metadata::metadata_at(s, f, base, table, o)
}

// After the opening: strings, tags and links, line end, metadata.
fn texted_at(s: &[u8], at: usize, base: usize, table: &mut [u8], out: Out) -> Reading<Out>
    requires { Readable base s.now at out }
    ensures { Did base (texted_of s.now at) out table.old table.new result }
{
    let (e, o) = texts_at(s, at, base, table, out)?;
    marked_at(s, e, base, table, o)
}

// A transaction up to its postings.
pub fn head_at(s: &[u8], at: usize, base: usize, table: &mut [u8], out: Out) -> Reading<Out>
    requires { Readable base s.now at out }
    ensures { Did base (head_of s.now at) out table.old table.new result }
{
    let (e, o) = opening_at(s, at, base, table, out)?;
    texted_at(s, e, base, table, o)
}

// Rule 11.
pub fn transaction_at(s: &[u8], at: usize, base: usize, table: &mut [u8], out: Out) -> Reading<Out>
    requires { Readable base s.now at out }
    ensures { Did base (transaction s.now at) out table.old table.new result }
{
    let (e, o) = head_at(s, at, base, table, out)?;
    body::body_at(s, e, base, table, o, s.len() + 1)
}
