// A walk over the postings of a month, turn by turn: no loop, and two rows of its own.
ghost use Rattle.std.specs.Prelude.{◌≡◌, ◌*◌, ◌≤◌, length};
ghost use Rattle.text.specs.Dates.{date_at};
ghost use Rattle.text.specs.Run.{blanks};
ghost use Rattle.text.specs.Permitted.{size_limit};
ghost use Rattle.row.specs.Row.{width};
ghost use Rattle.transaction.specs.steps.Heads.{head_of};
ghost use Rattle.walk.specs.Postings.{dated};
ghost use Rattle.walk.specs.steps.Walks.{date_of, head_end, posted_in, outer, inner, Standing, Turned};

use amount::kind;
use posting::body;
use row::table;
use row::table::{Row, WIDTH};
use row::writer::Out;
use text::run::Class;
use text::{date, run};

// Kinds of items (M-108): a posting that states an amount, and one that does not. Numbers, as rows hold them.
const STATED: usize = 50;

const UNSTATED: usize = 51;

// The bytes of a date.
const DATE: usize = 10;

// A posting and the row directly after it.
const TWO_ROWS: usize = 2 * WIDTH;

// Where a walk stands: at an entry, or inside the body of the transaction that starts at a place.
#[derive(Clone, Copy)]
pub struct Cursor {
    pub at: usize,
    pub inside: Option<usize>,
}

// Where a walk goes on, and the posting that it passed, if it passed one; nothing at the end.
pub type Turn = Option<(Cursor, Option<Row>)>;

// Whether a date, as the number yyyymmdd, is of that year and month.
fn is_dated(date: usize, year: usize, month: usize) -> bool
    ensures { result ≡ dated year month date }
{
    (date / 10000 == year) & (date / 100 % 100 == month)
}

// The date at the front of s.
fn date_of(s: &[u8]) -> usize
    ensures { result ≡ date_of (date_at s.now 0) }
{
    match date::date(s, 0) {
        Some((_, date)) => date as usize,
        None => 0,
    }
}

// Where the body of the transaction at the front of s starts.
fn body_start(s: &[u8]) -> usize
    requires { (length s.now ≤ size_limit) × (blanks s.now 10 ≤ length s.now) }
    ensures { result ≡ head_end (head_of s.now (blanks s.now 10)) }
{
    let gap = run::run(s, DATE, Class::Blank);
    let mut none = [0u8; 1];
    let out = Out {
        rows: 0,
        refused: None,
    };
    match transaction::transaction::head_at(s, gap, 0, &mut none, out) {
        Ok((e, _)) => e,
        Err(_) => 0,
    }
}

// A turn at an entry: into a transaction of the month, or behind the entry.
fn entry_turn(s: &[u8], at: usize, year: usize, month: usize) -> Turn
    requires { length s.now ≤ size_limit }
    ensures { Turned (dated year month) s.now (outer at) result }
{
    if s.len() <= at {
        return None;
    }
    let mut none = [0u8; 1];
    let Ok(entry) = entry::entry::entry_at(&s[at..], at, &mut none) else {
        return None;
    };
    if entry.kind == kind::TRANSACTION && is_dated(date_of(&s[at..]), year, month) {
        let body = Cursor {
            at: at + body_start(&s[at..]),
            inside: Some(at),
        };
        return Some((body, None));
    }
    let next = Cursor {
        at: at + entry.size,
        inside: None,
    };
    Some((next, None))
}

// The posting whose rows, n of them, were read into the table: its amount is the row directly after its own.
fn posted_in(t: &[u8], n: usize) -> Row
    requires { 2 * width ≤ length t.now }
    ensures { result ≡ posted_in t.now n }
{
    let own = table::row_in(t);
    let start = own.start;
    let end = own.end;
    if 1 < n {
        let next = table::row_in(&t[WIDTH..]);
        if next.kind == kind::AMOUNT {
            return Row {
                kind: STATED,
                start,
                end,
                line: 0,
                p: next.p,
                q: next.q,
                bits: next.bits,
            };
        }
    }
    Row {
        kind: UNSTATED,
        start,
        end,
        line: 0,
        p: 0,
        q: 0,
        bits: 0,
    }
}

// A turn in the body of a transaction: one posting with its metadata, or an empty line, or the body's end.
fn line_turn(s: &[u8], at: usize, from: usize, year: usize, month: usize) -> Turn
    requires { (length s.now ≤ size_limit) × Standing (dated year month) s.now (inner at from) }
    ensures { Turned (dated year month) s.now (inner at from) result }
{
    let mut rows = [0u8; TWO_ROWS];
    let out = Out {
        rows: 0,
        refused: None,
    };
    let i = at - from;
    let Ok((e, out)) = body::body_at(&s[from..], i, from, &mut rows, out, 1) else {
        return None;
    };
    if e == i {
        return Some((Cursor { at, inside: None }, None));
    }
    let next = Cursor {
        at: from + e,
        inside: Some(from),
    };
    let n = out.rows;
    if n == 0 {
        return Some((next, None));
    }
    Some((next, Some(posted_in(&rows, n))))
}

// One turn of a walk over the postings of a month.
pub fn advance(s: &[u8], c: Cursor, year: usize, month: usize) -> Turn
    requires { (length s.now ≤ size_limit) × Standing (dated year month) s.now c }
    ensures { Turned (dated year month) s.now c result }
{
    match c.inside {
        Some(from) => line_turn(s, c.at, from, year, month),
        None => entry_turn(s, c.at, year, month),
    }
}
