// One entry at the front of a text (rule 1), its rows written to the front of a table.
ghost use Rattle.std.specs.Prelude.{◌≡◌, ◌+◌, ◌-◌, ◌≤◌, length};
ghost use Rattle.text.specs.Permitted.{size_limit};
ghost use Rattle.amount.specs.steps.Answers.{one_of};
ghost use Rattle.row.specs.steps.Writing.{Did, Writable, Readable};
ghost use Rattle.entry.specs.Forms.{form_of};
ghost use Rattle.entry.specs.Entry.{entry_of};
ghost use Rattle.entry.specs.steps.Formed.{DidForm};
ghost use Rattle.entry.specs.steps.Undated.{gap_quoted, option_end, option_of, include_end, include_of, tag_of, blank_formed, poptag_form, pushtag_form, include_form, option_form, undated};
ghost use Rattle.entry.specs.steps.Settled.{settled_entry, settled_table, entry_answer, EntryPoured};

use crate::directive;
use crate::directive::Formed;
use amount::detail::Detail;
use amount::{detail, kind};
use row::table::Row;
use row::writer::Out;
use row::{table, writer};
use text::run::Class;
use text::stop::{Cause, Reading, Refused, Stop};
use text::{bytes, line, run, stop, string, tag, word};

// An entry that was read: its kind, and how many bytes and rows it has.
#[derive(Clone, Copy)]
pub struct Entry {
    pub kind: usize,
    pub size: usize,
    pub rows: usize,
}

// Gap and string.
fn gap_quoted(s: &[u8], at: usize) -> Reading<Detail>
    ensures { result ≡ one_of (gap_quoted s.now at) }
{
    let j = line::gap(s, at).ok_or(Stop::Miss)?;
    let e = string::string(s, j).ok_or(Stop::Miss)?;
    Ok((e, detail::named(kind::STRING, j + 1, e - 1, 0, 0)))
}

// After an option's first string, whose row is x: gap, string, line end.
fn option_end(
    s: &[u8],
    at: usize,
    x: Detail,
    base: usize,
    table: &mut [u8],
    out: Out,
) -> Reading<Out>
    requires { Writable 2 base out }
    ensures { Did base (option_end x s.now at) out table.old table.new result }
{
    let (f, y) = gap_quoted(s, at)?;
    let g = line::line_end(s, f).ok_or(Stop::Miss)?;
    let o = writer::emit(table, base, out, x);
    Ok((g, writer::emit(table, base, o, y)))
}

// After `option`: gap, string, gap, string, line end; all plain misses.
fn option_at(s: &[u8], at: usize, base: usize, table: &mut [u8], out: Out) -> Reading<Out>
    requires { Writable 2 base out }
    ensures { Did base (option_of s.now at) out table.old table.new result }
{
    let (e, x) = gap_quoted(s, at)?;
    option_end(s, e, x, base, table, out)
}

// An include's string, line end; both required.
fn include_end(s: &[u8], at: usize, base: usize, table: &mut [u8], out: Out) -> Reading<Out>
    requires { Writable 2 base out }
    ensures { Did base (include_end s.now at) out table.old table.new result }
{
    let (e, o) = content::content::required_string(s, at, base, table, out)?;
    let f = line::line_end(s, e).ok_or(Stop::Hard(Cause::Missing, e))?;
    Ok((f, o))
}

// After `include`: gap, string, line end; all required.
fn include_at(s: &[u8], at: usize, base: usize, table: &mut [u8], out: Out) -> Reading<Out>
    requires { Writable 2 base out }
    ensures { Did base (include_of s.now at) out table.old table.new result }
{
    let j = line::gap(s, at).ok_or(Stop::Hard(Cause::MissingGap, at))?;
    include_end(s, j, base, table, out)
}

// After `pushtag` or `poptag`: gap, tag. What is left of the line is the next entry.
fn tagged_at(s: &[u8], at: usize, base: usize, table: &mut [u8], out: Out) -> Reading<Out>
    requires { Writable 2 base out }
    ensures { Did base (tag_of s.now at) out table.old table.new result }
{
    let j = line::gap(s, at).ok_or(Stop::Miss)?;
    let e = tag::tag(s, j).ok_or(Stop::Miss)?;
    let d = detail::named(kind::TAG, j + 1, e, 0, 0);
    Ok((e, writer::emit(table, base, out, d)))
}

// A line up to and with its line feed: end of ledger doesn't end one.
fn blank_at(s: &[u8], out: Out) -> Reading<Formed>
    ensures { result ≡ blank_formed s.now out }
{
    let e = run::run(s, 0, Class::Line);
    if e < s.len() {
        return Ok((
            e + 1,
            Formed {
                kind: kind::BLANK,
                date: 0,
                out,
            },
        ));
    }
    Err(Stop::Miss)
}

fn poptag_at(s: &[u8], base: usize, table: &mut [u8], out: Out) -> Reading<Formed>
    requires { Readable base s.now 0 out }
    ensures { DidForm base (poptag_form s.now) out table.old table.new result }
{
    let e = word::word(s, 0, b"poptag").ok_or(Stop::Miss)?;
    directive::formed_as(kind::POPTAG, 0, tagged_at(s, e, base, table, out))
}

fn pushtag_at(s: &[u8], base: usize, table: &mut [u8], out: Out) -> Reading<Formed>
    requires { Readable base s.now 0 out }
    ensures { DidForm base (pushtag_form s.now) out table.old table.new result }
{
    match word::word(s, 0, b"pushtag") {
        Some(e) => directive::formed_as(kind::PUSHTAG, 0, tagged_at(s, e, base, table, out)),
        None => poptag_at(s, base, table, out),
    }
}

fn include_form(s: &[u8], base: usize, table: &mut [u8], out: Out) -> Reading<Formed>
    requires { Readable base s.now 0 out }
    ensures { DidForm base (include_form s.now) out table.old table.new result }
{
    match word::word(s, 0, b"include") {
        Some(e) => directive::formed_as(kind::INCLUDE, 0, include_at(s, e, base, table, out)),
        None => pushtag_at(s, base, table, out),
    }
}

// Option, include, pushtag or poptag: no two of the words start alike.
fn option_form(s: &[u8], base: usize, table: &mut [u8], out: Out) -> Reading<Formed>
    requires { Readable base s.now 0 out }
    ensures { DidForm base (option_form s.now) out table.old table.new result }
{
    match word::word(s, 0, b"option") {
        Some(e) => directive::formed_as(kind::OPTION, 0, option_at(s, e, base, table, out)),
        None => include_form(s, base, table, out),
    }
}

fn undated_at(s: &[u8], base: usize, table: &mut [u8], out: Out) -> Reading<Formed>
    requires { Readable base s.now 0 out }
    ensures { DidForm base (undated s.now) out table.old table.new result }
{
    match option_form(s, base, table, out) {
        Err(Stop::Miss) => blank_at(s, out),
        form => form,
    }
}

// Rule 1. Directive, option, include, pushtag or poptag, else a line. The first byte tells which of these can be read: a
// directive starts with a digit, each of the words with a small letter, and most lines with neither.
fn form_at(s: &[u8], base: usize, table: &mut [u8], out: Out) -> Reading<Formed>
    requires { Readable base s.now 0 out }
    ensures { DidForm base (form_of s.now) out table.old table.new result }
{
    let first = bytes::peek(s, 0);
    if bytes::is_digit(first) {
        return match directive::directive_at(s, base, table, out) {
            Err(Stop::Miss) => blank_at(s, out),
            form => form,
        };
    }
    if bytes::is_small(first) {
        return undated_at(s, base, table, out);
    }
    blank_at(s, out)
}

// A form that was read, its details written: its own row goes to the front, unless a value is refused.
fn settled_at(table: &mut [u8], base: usize, end: usize, form: Formed) -> Result<Entry, Refused>
    requires { (base ≤ size_limit) × (end ≤ size_limit) × (form.out.rows ≤ size_limit) }
    ensures value { result ≡ settled_entry form.kind end form.out }
    ensures table_after { table.new ≡ settled_table base form.kind form.date end form.out table.old }
{
    let Formed { kind, date, out } = form;
    match out.refused {
        Some((fault, place)) => Err(stop::refused_at(usize::from(fault), place)),
        None => {
            table::put_front(
                table,
                Row {
                    kind,
                    start: base,
                    end: base + end,
                    line: 0,
                    p: date,
                    q: out.rows,
                    bits: 0,
                },
            );
            Ok(Entry {
                kind,
                size: end,
                rows: out.rows + 1,
            })
        }
    }
}

// The entry at the front of s, which starts at `base`; its rows go to the front of the table, where they fit. A
// refusal's place counts from the entry's start: 3 stands at its group, 4 and 5 at the entry's start.
pub fn entry_at(s: &[u8], base: usize, table: &mut [u8]) -> Result<Entry, Refused>
    requires { (base ≤ size_limit) × (length s.now ≤ size_limit) }
    ensures value { result ≡ entry_answer (entry_of s.now) }
    ensures entry_poured { EntryPoured (entry_of s.now) base s.now table.old table.new }
{
    let k = table::place(1, table.len());
    let out = Out {
        rows: 0,
        refused: None,
    };
    match form_at(s, base, &mut table[k..], out) {
        Ok((end, form)) => settled_at(table, base, end, form),
        Err(Stop::Miss) => Err(stop::refused_at(stop::NO_ENTRY, 0)),
        Err(Stop::Hard(Cause::TooDeep, p)) => Err(stop::refused_at(usize::from(Cause::TooDeep), p)),
        Err(Stop::Hard(missing, _)) => Err(stop::refused_at(usize::from(missing), 0)),
    }
}
