// What the row of a detail writes, from the row before it and the kind of the next.
ghost use Rattle.std.specs.Prelude.{◌≡◌, cond, [], ◌∷◌, ◌++◌, ◌≤◌, ◌<◌};
ghost use Rattle.text.specs.Bytes.{bytes, between};
ghost use Rattle.amount.specs.Kinds.{first_detail, amount_kind, currency_kind};
ghost use Rattle.layout.specs.Meaning.{item_of, naming};
ghost use Rattle.layout.specs.Written.{value_text, quotes, detail_text};
ghost use Rattle.rewrite.specs.steps.Putting.{Put, ended};
ghost use Rattle.rewrite.specs.steps.Pieces.{Flagged, cost_text, posting_line, meta_line};

use crate::{number, put};
use amount::kind;
use row::table::Row;
use row::writer;

// A space and a span's text.
fn spaced(s: &[u8], a: usize, e: usize, out: &mut [u8], at: usize) -> usize
    ensures { Put out.old at (32 ∷ between s.now a e) out.new result }
{
    let next = put::put(out, at, b' ');
    put::span(s, a, e, out, next)
}

// A space, a mark and a span's text.
fn marked(mark: u8, s: &[u8], a: usize, e: usize, out: &mut [u8], at: usize) -> usize
    ensures { Put out.old at (32 ∷ mark ∷ between s.now a e) out.new result }
{
    let next = put::put_two(out, at, b' ', mark);
    put::span(s, a, e, out, next)
}

fn quoted(s: &[u8], a: usize, e: usize, out: &mut [u8], at: usize) -> usize
    ensures { Put out.old at (quotes (between s.now a e)) out.new result }
{
    let one = put::put(out, at, b'"');
    let two = put::span(s, a, e, out, one);
    put::put(out, two, b'"')
}

// A space and a string.
fn string(s: &[u8], a: usize, e: usize, out: &mut [u8], at: usize) -> usize
    ensures { Put out.old at (32 ∷ quotes (between s.now a e)) out.new result }
{
    let next = put::put(out, at, b' ');
    quoted(s, a, e, out, next)
}

// Value and currency.
fn sum(s: &[u8], x: Row, out: &mut [u8], at: usize) -> usize
    ensures { Put out.old at (value_text x.bits ++ (32 ∷ between s.now x.p x.q)) out.new result }
{
    let next = number::value(x.bits, out, at);
    spaced(s, x.p, x.q, out, next)
}

// Kinds whose p and q name a text.
fn is_naming(kind: usize) -> bool
    ensures { result ≡ naming kind }
{
    writer::is_spanned(kind) & (kind != kind::NUMBER_META)
}

// That text, where the kind has one.
fn other(s: &[u8], x: Row, out: &mut [u8], at: usize) -> usize
    ensures { Put out.old at (item_of s.now x).other out.new result }
{
    if is_naming(x.kind) {
        return put::span(s, x.p, x.q, out, at);
    }
    at
}

// What closes a cost: its date, if there is one, behind a comma or not.
fn brace_end(comma: bool, n: usize, out: &mut [u8], at: usize) -> usize
    ensures { Put out.old at (ended (cond comma (bytes ", ") []) n) out.new result }
{
    if n == 0 {
        return put::put(out, at, b'}');
    }
    if comma {
        let one = put::put_two(out, at, b',', b' ');
        let two = number::date(n, out, one);
        return put::put(out, two, b'}');
    }
    let next = number::date(n, out, at);
    put::put(out, next, b'}')
}

// An amount: in a cost behind its `{`, before a tolerance without the currency, else behind a space.
fn amount(s: &[u8], prev: Row, x: Row, next: usize, out: &mut [u8], at: usize) -> usize
    requires { x.kind ≡ amount_kind }
    ensures { Put out.old at (detail_text (item_of s.now prev) (item_of s.now x) next) out.new result }
{
    if prev.kind == kind::COST {
        let one = sum(s, x, out, at);
        return brace_end(true, prev.p, out, one);
    }
    let two = put::put(out, at, b' ');
    if next == kind::TOLERANCE {
        return number::value(x.bits, out, two);
    }
    sum(s, x, out, two)
}

// A tolerance, and the currency of the amount before it.
fn tolerance(s: &[u8], prev: Row, x: Row, out: &mut [u8], at: usize) -> usize
    ensures { Put out.old at (bytes " ~ " ++ (value_text x.bits ++ (32 ∷ (item_of s.now prev).other))) out.new result }
{
    let one = put::copy(b" ~ ", out, at);
    let two = number::value(x.bits, out, one);
    let three = put::put(out, two, b' ');
    other(s, prev, out, three)
}

// The brace of a cost; where no amount follows also what closes it.
fn cost(x: Row, next: usize, out: &mut [u8], at: usize) -> usize
    ensures { Put out.old at (cost_text x.p next) out.new result }
{
    let one = put::put_two(out, at, b' ', b'{');
    if next == kind::AMOUNT {
        return one;
    }
    brace_end(false, x.p, out, one)
}

// A flag, strings and marks of a transaction, an account.
fn words(s: &[u8], prev: Row, x: Row, next: usize, out: &mut [u8], at: usize) -> usize
    requires { (first_detail ≤ x.kind) × (x.kind < amount_kind) }
    ensures { Put out.old at (detail_text (item_of s.now prev) (item_of s.now x) next) out.new result }
{
    if x.kind == kind::PAYEE {
        return string(s, x.start, x.end, out, at);
    }
    if x.kind == kind::NARRATION {
        return string(s, x.start, x.end, out, at);
    }
    if x.kind == kind::TAG {
        return marked(b'#', s, x.start, x.end, out, at);
    }
    if x.kind == kind::LINK {
        return marked(b'^', s, x.start, x.end, out, at);
    }
    // A flag or an account.
    spaced(s, x.start, x.end, out, at)
}

// Amounts, tolerances, costs and prices.
fn money(s: &[u8], prev: Row, x: Row, next: usize, out: &mut [u8], at: usize) -> usize
    requires { (amount_kind ≤ x.kind) × (x.kind < currency_kind) }
    ensures { Put out.old at (detail_text (item_of s.now prev) (item_of s.now x) next) out.new result }
{
    if x.kind == kind::AMOUNT {
        return amount(s, prev, x, next, out, at);
    }
    if x.kind == kind::TOLERANCE {
        return tolerance(s, prev, x, out, at);
    }
    if x.kind == kind::COST {
        return cost(x, next, out, at);
    }
    if x.kind == kind::UNIT_PRICE {
        let one = put::copy(b" @ ", out, at);
        return sum(s, x, out, one);
    }
    let two = put::copy(b" @@ ", out, at);
    sum(s, x, out, two)
}

// A posting's line: its flag, if it has one, and its account.
fn posting(s: &[u8], x: Row, out: &mut [u8], at: usize) -> usize
    requires { x.p < 256 }
    ensures { Put out.old at (posting_line x.p (between s.now x.start x.end)) out.new result }
{
    let one = put::copy(b"\n  ", out, at);
    if x.p == 0 {
        return put::span(s, x.start, x.end, out, one);
    }
    let two = put::put_two(out, one, x.p as u8, b' ');
    put::span(s, x.start, x.end, out, two)
}

// The front of a line of metadata: its key.
fn key(s: &[u8], a: usize, e: usize, out: &mut [u8], at: usize) -> usize
    ensures { Put out.old at (bytes "\n  " ++ (between s.now a e ++ bytes ": ")) out.new result }
{
    let one = put::copy(b"\n  ", out, at);
    let two = put::span(s, a, e, out, one);
    put::put_two(out, two, b':', b' ')
}

// A line of metadata.
fn metadata(s: &[u8], x: Row, out: &mut [u8], at: usize) -> usize
    ensures { Put out.old at (meta_line (between s.now x.start x.end) (item_of s.now x)) out.new result }
{
    let next = key(s, x.start, x.end, out, at);
    if x.kind == kind::STRING_META {
        return quoted(s, x.p, x.q, out, next);
    }
    if x.kind == kind::NUMBER_META {
        return number::value(x.bits, out, next);
    }
    other(s, x, out, next)
}

// Currencies and booking of an open, strings, postings and metadata.
fn lines(s: &[u8], prev: Row, x: Row, next: usize, out: &mut [u8], at: usize) -> usize
    requires { (currency_kind ≤ x.kind) × Flagged x }
    ensures { Put out.old at (detail_text (item_of s.now prev) (item_of s.now x) next) out.new result }
{
    if x.kind == kind::CURRENCY {
        if prev.kind == kind::CURRENCY {
            let one = put::put_two(out, at, b',', b' ');
            return put::span(s, x.start, x.end, out, one);
        }
        return spaced(s, x.start, x.end, out, at);
    }
    if x.kind == kind::BOOKING {
        return string(s, x.start, x.end, out, at);
    }
    if x.kind == kind::POSTING {
        return posting(s, x, out, at);
    }
    if x.kind == kind::STRING {
        return string(s, x.start, x.end, out, at);
    }
    metadata(s, x, out, at)
}

// The row of a detail.
pub fn detail(s: &[u8], prev: Row, x: Row, next: usize, out: &mut [u8], at: usize) -> usize
    requires { (first_detail ≤ x.kind) × Flagged x }
    ensures { Put out.old at (detail_text (item_of s.now prev) (item_of s.now x) next) out.new result }
{
    if x.kind < kind::AMOUNT {
        return words(s, prev, x, next, out, at);
    }
    if x.kind < kind::CURRENCY {
        return money(s, prev, x, next, out, at);
    }
    lines(s, prev, x, next, out, at)
}
