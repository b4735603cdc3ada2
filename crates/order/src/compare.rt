// The order of texts and of records.
ghost use Rattle.std.specs.Prelude.{◌≡◌, true, ◌+◌, ◌*◌, ◌≤◌, length, drop};
ghost use Rattle.row.specs.Row.{fields_in};
ghost use Rattle.order.specs.Records.{record_width};
ghost use Rattle.access.specs.Spans.{span_text};
ghost use Rattle.order.specs.Order.{texts, order_of};
ghost use Rattle.order.specs.steps.Buffers.{said_in, record_at};

use crate::record::RECORD;
use access::span;
use row::table;
use row::table::Row;
use std::cmp::Ordering;

// Whether eight bytes of two texts are the same: one test with no way out, so that the compiler vectorises it.
fn eight_same(x: &[u8], y: &[u8], i: usize) -> bool
    requires { (i + 8 ≤ length x.now) × (i + 8 ≤ length y.now) }
    ensures { result ≡ true → texts (drop i x.now) (drop i y.now) ≡ texts (drop (i + 8) x.now) (drop (i + 8) y.now) }
{
    (x[i] == y[i])
        & (x[i + 1] == y[i + 1])
        & (x[i + 2] == y[i + 2])
        & (x[i + 3] == y[i + 3])
        & (x[i + 4] == y[i + 4])
        & (x[i + 5] == y[i + 5])
        & (x[i + 6] == y[i + 6])
        & (x[i + 7] == y[i + 7])
}

// A place up to which two texts are the same, eight bytes at a time.
fn same_front(x: &[u8], y: &[u8]) -> usize
    ensures same { texts x.now y.now ≡ texts (drop result x.now) (drop result y.now) }
    ensures within { (result ≤ length x.now) × (result ≤ length y.now) }
{
    let mut i = 0;
    // No `for`: a turn passes eight bytes, and where they end is the answer.
    while i + 8 <= x.len() {
        if y.len() < i + 8 {
            return i;
        }
        if eight_same(x, y, i) {
            i += 8;
        } else {
            return i;
        }
    }
    i
}

// The order of two texts by their bytes: one that starts another comes before it.
pub fn text_order(x: &[u8], y: &[u8]) -> Ordering
    ensures { result ≡ texts x.now y.now }
{
    let from = same_front(x, y);
    for i in from..x.len() {
        if y.len() <= i {
            return Ordering::Greater;
        }
        let o = x[i].cmp(&y[i]);
        if o.is_ne() {
            return o;
        }
    }
    x.len().cmp(&y.len())
}

// The order of the texts of two spans of a ledger.
fn span_order(s: &[u8], a: usize, b: usize, c: usize, d: usize) -> Ordering
    ensures { result ≡ texts (span_text s.now a b) (span_text s.now c d) }
{
    let x = span::text_of(s, a, b);
    let y = span::text_of(s, c, d);
    text_order(x, y)
}

// The row of record i of a buffer.
pub fn row_at(t: &[u8], i: usize) -> Row
    requires { i * record_width + record_width ≤ length t.now }
    ensures { result ≡ fields_in (record_at t.now i) }
{
    let at = i * RECORD;
    table::fields_in(&t[at..at + RECORD])
}

// The order of two records of a buffer, by their numbers: not `cmp` of the rows, for spans are compared by their texts.
pub fn record_order(s: &[u8], t: &[u8], i: usize, j: usize) -> Ordering
    requires { (i * record_width + record_width ≤ length t.now) × (j * record_width + record_width ≤ length t.now) }
    ensures { result ≡ order_of (said_in s.now (record_at t.now i)) (said_in s.now (record_at t.now j)) }
{
    let a = row_at(t, i);
    let b = row_at(t, j);
    a.kind
        .cmp(&b.kind)
        .then_with(|| span_order(s, a.start, a.end, b.start, b.end))
        .then_with(|| span_order(s, a.p, a.q, b.p, b.q))
}
