// Metadata (rule 16).
ghost use Rattle.std.specs.Prelude.{◌≡◌, get_or};
ghost use Rattle.text.specs.Bytes.{starts_part};
ghost use Rattle.text.specs.Run.{blanks};
ghost use Rattle.amount.specs.steps.Answers.{one_of};
ghost use Rattle.row.specs.steps.Writing.{Did, Writable, Readable};
ghost use Rattle.posting.specs.Metadata.{key_at, value, meta_line, meta_step, metadata};
ghost use Rattle.posting.specs.steps.Lines.{unit_value, number_value, value_end, gap_value, colon_value, keyed_line};

use amount::detail::Detail;
use amount::{detail, expression, kind};
use row::writer;
use row::writer::Out;
use text::run::Class;
use text::stop::{Reading, Stop};
use text::{bytes, currency, line, run, string, window};

// Key: small letter, then letters, digits, `-`, `_`.
fn key(s: &[u8], at: usize) -> Option<usize>
    ensures { result ≡ key_at s.now at }
{
    if at < s.len() && bytes::is_small(s[at]) {
        return Some(window::tag_run(s, at + 1));
    }
    None
}

fn unit_value(s: &[u8], a: usize, b: usize, at: usize) -> Reading<Detail>
    ensures { result ≡ one_of (unit_value a b s.now at) }
{
    let e = currency::currency(s, at).ok_or(Stop::Miss)?;
    Ok((e, detail::named(kind::CURRENCY_META, a, b, at, e)))
}

fn number_value(s: &[u8], a: usize, b: usize, at: usize) -> Reading<Detail>
    ensures { result ≡ one_of (number_value a b s.now at) }
{
    match expression::expression_at(s, at) {
        Ok((e, v)) => Ok((
            e,
            Detail {
                kind: kind::NUMBER_META,
                start: a,
                end: b,
                p: at,
                q: e,
                value: v,
            },
        )),
        Err(Stop::Miss) => unit_value(s, a, b, at),
        Err(hard) => Err(hard),
    }
}

// Value: string, expression or currency, tried so. The key spans a to b.
fn value_at(s: &[u8], a: usize, b: usize, at: usize) -> Reading<Detail>
    ensures { result ≡ one_of (value a b s.now at) }
{
    match string::string(s, at) {
        Some(e) => Ok((e, detail::named(kind::STRING_META, a, b, at + 1, e - 1))),
        None => number_value(s, a, b, at),
    }
}

// Value, line end.
fn value_end(s: &[u8], a: usize, b: usize, at: usize) -> Reading<Detail>
    ensures { result ≡ one_of (value_end a b s.now at) }
{
    let (e, d) = value_at(s, a, b, at)?;
    let f = line::line_end(s, e).ok_or(Stop::Miss)?;
    Ok((f, d))
}

// Gap, value, line end.
fn gap_value(s: &[u8], a: usize, b: usize, at: usize) -> Reading<Detail>
    ensures { result ≡ one_of (gap_value a b s.now at) }
{
    let j = line::gap(s, at).ok_or(Stop::Miss)?;
    value_end(s, a, b, j)
}

// `:`, gap, value, line end.
fn colon_value(s: &[u8], a: usize, b: usize) -> Reading<Detail>
    ensures { result ≡ one_of (colon_value a s.now b) }
{
    if s.get(b) == Some(&b':') {
        return gap_value(s, a, b, b + 1);
    }
    Err(Stop::Miss)
}

// Key, `:`, gap, value, line end.
fn keyed_line(s: &[u8], at: usize) -> Reading<Detail>
    ensures { result ≡ one_of (keyed_line s.now at) }
{
    let e = key(s, at).ok_or(Stop::Miss)?;
    colon_value(s, at, e)
}

// Gap, key, `:`, gap, value, line end.
fn meta_line(s: &[u8], at: usize) -> Reading<Detail>
    ensures { result ≡ one_of (meta_line s.now at) }
{
    let j = line::gap(s, at).ok_or(Stop::Miss)?;
    keyed_line(s, j)
}

// Whether a posting or an entry starts, after blanks: a capital or a digit starts no key and ends no line.
fn starts_other(s: &[u8], at: usize) -> bool
    ensures { result ≡ starts_part (get_or s.now (blanks s.now at) 0) }
{
    bytes::starts_part(bytes::peek(s, run::run(s, at, Class::Blank)))
}

// A metadata line, else an empty or comment line. Most lines are neither, which one byte tells.
fn meta_step(s: &[u8], at: usize, base: usize, table: &mut [u8], out: Out) -> Reading<Out>
    requires { Writable 1 base out }
    ensures { Did base (meta_step s.now at) out table.old table.new result }
{
    if starts_other(s, at) {
        return Err(Stop::Miss);
    }
    match meta_line(s, at) {
        Ok((e, d)) => Ok((e, writer::emit(table, base, out, d))),
        Err(Stop::Miss) => {
            let e = line::empty_line(s, at).ok_or(Stop::Miss)?;
            Ok((e, out))
        }
        Err(hard) => Err(hard),
    }
}

// Any number of metadata lines and of empty or comment lines.
pub fn metadata_at(s: &[u8], at: usize, base: usize, table: &mut [u8], out: Out) -> Reading<Out>
    requires { Readable base s.now at out }
    ensures { Did base (metadata s.now at) out table.old table.new result }
{
    let mut i = at;
    let mut o = out;
    // A turn goes on by the bytes that it read: no step that a range could count.
    while i < s.len() {
        match meta_step(s, i, base, table, o) {
            Ok((e, m)) => {
                o = m;
                i = e;
            }
            Err(Stop::Miss) => return Ok((i, o)),
            Err(hard) => return Err(hard),
        }
    }
    Ok((i, o))
}
