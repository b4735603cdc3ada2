// Directives (rule 4).
ghost use Rattle.std.specs.Prelude.{◌≡◌};
ghost use Rattle.row.specs.steps.Writing.{Did, Readable};
ghost use Rattle.entry.specs.Forms.{dateless, directive};
ghost use Rattle.entry.specs.steps.Formed.{content_end};
ghost use Rattle.entry.specs.steps.Formed.{keyword_at, middle_keyword, late_keyword, formed_of, DidForm, gap_content, by_keyword};

use amount::kind;
use posting::metadata;
use row::writer::Out;
use text::stop::{Cause, Reading, Stop};
use text::{date, line, word};

// A form of an entry that was read: its kind, its date or, as its row has it, 0, and what was written.
#[derive(Clone, Copy)]
pub struct Formed {
    pub kind: usize,
    pub date: usize,
    pub out: Out,
}

fn late_keyword(s: &[u8], at: usize) -> Option<(usize, usize)>
    ensures { result ≡ late_keyword s.now at }
{
    if let Some(e) = word::word(s, at, b"pad") {
        return Some((kind::PAD, e));
    }
    if let Some(e) = word::word(s, at, b"commodity") {
        return Some((kind::COMMODITY, e));
    }
    let e = word::word(s, at, b"event")?;
    Some((kind::EVENT, e))
}

fn middle_keyword(s: &[u8], at: usize) -> Option<(usize, usize)>
    ensures { result ≡ middle_keyword s.now at }
{
    if let Some(e) = word::word(s, at, b"open") {
        return Some((kind::OPEN, e));
    }
    if let Some(e) = word::word(s, at, b"close") {
        return Some((kind::CLOSE, e));
    }
    late_keyword(s, at)
}

// The keywords, compared byte for byte: the entry's kind, and where the keyword ends.
fn keyword_at(s: &[u8], at: usize) -> Option<(usize, usize)>
    ensures { result ≡ keyword_at s.now at }
{
    if let Some(e) = word::word(s, at, b"price") {
        return Some((kind::PRICE, e));
    }
    if let Some(e) = word::word(s, at, b"balance") {
        return Some((kind::BALANCE, e));
    }
    middle_keyword(s, at)
}

// What a reader that writes answered, as a form of a kind; why it stopped, whatever that is, is handed on.
pub fn formed_as<E>(
    kind: usize,
    date: usize,
    r: Result<(usize, Out), E>,
) -> Result<(usize, Formed), E>
    ensures { result ≡ formed_of kind date r }
{
    match r {
        Ok((e, out)) => Ok((e, Formed { kind, date, out })),
        Err(stop) => Err(stop),
    }
}

// A content, line end (a plain miss), metadata. Where the line end misses, the rows that were written are covered by
// those that come next.
fn content_end(
    s: &[u8],
    at: usize,
    kind: usize,
    base: usize,
    table: &mut [u8],
    out: Out,
) -> Reading<Out>
    requires { Readable base s.now at out }
    ensures { Did base (content_end kind s.now at) out table.old table.new result }
{
    let (e, o) = content::content::content_at(s, at, kind, base, table, out)?;
    let f = line::line_end(s, e).ok_or(Stop::Miss)?;
    metadata::metadata_at(s, f, base, table, o)
}

fn gap_content(
    s: &[u8],
    at: usize,
    kind: usize,
    base: usize,
    table: &mut [u8],
    out: Out,
) -> Reading<Out>
    requires { Readable base s.now at out }
    ensures { Did base (gap_content kind s.now at) out table.old table.new result }
{
    let j = line::gap(s, at).ok_or(Stop::Hard(Cause::MissingGap, at))?;
    content_end(s, j, kind, base, table, out)
}

// A keyword, a gap and a content, both hard, then line end (a plain miss) and metadata.
fn by_keyword(
    s: &[u8],
    at: usize,
    date: usize,
    base: usize,
    table: &mut [u8],
    out: Out,
) -> Reading<Formed>
    requires { Readable base s.now at out }
    ensures { DidForm base (by_keyword date s.now at) out table.old table.new result }
{
    let (kind, e) = keyword_at(s, at).ok_or(Stop::Miss)?;
    formed_as(kind, date, gap_content(s, e, kind, base, table, out))
}

// After the date and its gap: a transaction, or one of the keywords.
fn dateless_at(
    s: &[u8],
    at: usize,
    date: usize,
    base: usize,
    table: &mut [u8],
    out: Out,
) -> Reading<Formed>
    requires { Readable base s.now at out }
    ensures { DidForm base (dateless date s.now at) out table.old table.new result }
{
    match transaction::transaction::transaction_at(s, at, base, table, out) {
        Err(Stop::Miss) => by_keyword(s, at, date, base, table, out),
        read => formed_as(kind::TRANSACTION, date, read),
    }
}

// Directive: date, gap (hard), and that.
pub fn directive_at(s: &[u8], base: usize, table: &mut [u8], out: Out) -> Reading<Formed>
    requires { Readable base s.now 0 out }
    ensures { DidForm base (directive s.now) out table.old table.new result }
{
    let (e, y) = date::date(s, 0).ok_or(Stop::Miss)?;
    let j = line::gap(s, e).ok_or(Stop::Hard(Cause::MissingGap, e))?;
    dateless_at(s, j, y as usize, base, table, out)
}
