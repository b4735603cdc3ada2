// All rows of a table, written one after the other.
ghost use Rattle.std.specs.Prelude.{◌≡◌, ◌*◌, ◌-◌, ◌≤◌, length, drop};
ghost use Rattle.row.specs.Row.{width, rows_in};
ghost use Rattle.layout.specs.Meaning.{item_of, meaning};
ghost use Rattle.layout.specs.Written.{printed, no_item};
ghost use Rattle.rewrite.specs.steps.Putting.{Put};
ghost use Rattle.rewrite.specs.steps.Pieces.{Flagged, AllFlagged, no_row, front, piece_text, kind_now};

use crate::{detail, head};
use amount::kind;
use row::table;
use row::table::{Row, WIDTH};

fn none() -> Row
    ensures { result ≡ no_row }
{
    Row {
        kind: 0,
        start: 0,
        end: 0,
        line: 0,
        p: 0,
        q: 0,
        bits: 0,
    }
}

// Row i of the first n rows of a table, or none behind them.
fn row_at(t: &[u8], i: usize, n: usize) -> Row
    requires { n * width ≤ length t.now }
    ensures { result ≡ front (rows_in (n - i) (drop (i * width) t.now)) }
{
    if n <= i {
        return none();
    }
    table::row_in(&t[i * WIDTH..])
}

// What a row writes, where k is the kind of the entry that is being written.
fn piece(s: &[u8], k: usize, prev: Row, x: Row, next: usize, out: &mut [u8], at: usize) -> usize
    requires { Flagged x }
    ensures { Put out.old at (piece_text k (item_of s.now prev) (item_of s.now x) next) out.new result }
{
    if x.kind < kind::FIRST_DETAIL {
        let one = head::close(k, out, at);
        return head::head(s, x, next, out, one);
    }
    detail::detail(s, prev, x, next, out, at)
}

// The kind of the entry that is being written, behind a row.
fn kind_now(kind: usize, k: usize) -> usize
    ensures { result ≡ kind_now kind k }
{
    if kind < kind::FIRST_DETAIL {
        return kind;
    }
    k
}

// The first n rows of a table to the output's front, if there is room for them: how many bytes they write.
pub fn rows(s: &[u8], t: &[u8], n: usize, out: &mut [u8]) -> usize
    requires { (n * width ≤ length t.now) × AllFlagged (rows_in n t.now) }
    ensures { Put out.old 0 (printed 0 no_item (meaning s.now (rows_in n t.now))) out.new result }
{
    let mut at = 0;
    let mut k = 0;
    let mut prev = none();
    let mut x = row_at(t, 0, n);
    for i in 0..n {
        let next = row_at(t, i + 1, n);
        at = piece(s, k, prev, x, next.kind, out, at);
        k = kind_now(x.kind, k);
        prev = x;
        x = next;
    }
    head::close(k, out, at)
}
