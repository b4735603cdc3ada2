// The row writer: rows after those already there, and the first refused value.
ghost use Rattle.std.specs.Prelude.{◌≡◌, [], ◌∷◌, map, ◌≤◌};
ghost use Rattle.decimal.specs.Exact.{twos_of};
ghost use Rattle.text.specs.Permitted.{size_limit};
ghost use Rattle.row.specs.Row.{row_bytes};
ghost use Rattle.row.specs.steps.Pouring.{pour_at};
ghost use Rattle.row.specs.Details.{spanned, millionths, value_place};
ghost use Rattle.row.specs.steps.Writing.{laid, noted, outs, some_row, first_refused, Writable};

use crate::table;
use crate::table::{FIELD, Row};
use amount::detail::Detail;
use amount::kind;
use decimal::{Fault, Value};

// So many rows are there; and the first refused value, with its place.
#[derive(Clone, Copy, Debug, PartialEq, Eq)]
pub struct Out {
    pub rows: usize,
    pub refused: Option<(Fault, usize)>,
}

// Kinds whose p and q are a span.
pub fn is_spanned(kind: usize) -> bool
    ensures { result ≡ spanned kind }
{
    (kind == kind::AMOUNT)
        | (kind == kind::UNIT_PRICE)
        | (kind == kind::TOTAL_PRICE)
        | (kind == kind::STRING_META)
        | (kind == kind::NUMBER_META)
        | (kind == kind::CURRENCY_META)
}

// A value's eight bytes.
pub fn value_bits(v: Value) -> usize
    ensures { result ≡ twos_of (millionths v) }
{
    match v {
        Ok(d) => decimal::row_bits(d) as usize,
        Err(_) => 0,
    }
}

// The row of a detail of an entry that starts at `base`: the low four bytes of each place are as they should be.
fn row_of(x: Detail, base: usize) -> Row
    requires { base ≤ size_limit }
    ensures { row_bytes result ≡ row_bytes (laid base x) }
{
    let kind = x.kind;
    let start = base + x.start % FIELD;
    let end = base + x.end % FIELD;
    let v = x.value;
    let bits = value_bits(v);
    if is_spanned(kind) {
        return Row {
            kind,
            start,
            end,
            line: 0,
            p: base + x.p % FIELD,
            q: base + x.q % FIELD,
            bits,
        };
    }
    Row {
        kind,
        start,
        end,
        line: 0,
        p: x.p,
        q: x.q,
        bits,
    }
}

// Where a value's refusal is placed: the start of its expression.
fn value_place(x: Detail) -> usize
    ensures { result ≡ value_place x }
{
    if x.kind == kind::NUMBER_META {
        x.p
    } else {
        x.start
    }
}

// The first refused value is kept.
fn first_refused(first: Option<(Fault, usize)>, x: Detail) -> Option<(Fault, usize)>
    ensures { result ≡ first_refused first x }
{
    match first {
        Some(first) => Some(first),
        None => match x.value {
            Ok(_) => None,
            Err(fault) => Some((fault, value_place(x))),
        },
    }
}

// A detail of the entry that starts at `base` is written, where there is room for it.
pub fn emit(table: &mut [u8], base: usize, out: Out, x: Detail) -> Out
    requires { Writable 1 base out }
    ensures answer { result ≡ noted out x }
    ensures rows { table.new ≡ pour_at out.rows (laid base x ∷ []) table.old }
{
    let k = out.rows;
    if table::fits(k, table.len()) {
        let r = row_of(x, base);
        table::put_row(table, k, r);
    }
    Out {
        rows: k + 1,
        refused: first_refused(out.refused, x),
    }
}

// A row, and another, if there is one.
pub fn emit_with(table: &mut [u8], base: usize, out: Out, x: Detail, more: Option<Detail>) -> Out
    requires { Writable 2 base out }
    ensures answer { result ≡ outs out (x ∷ some_row more) }
    ensures rows { table.new ≡ pour_at out.rows (map (laid base) (x ∷ some_row more)) table.old }
{
    let o = emit(table, base, out, x);
    match more {
        Some(n) => emit(table, base, o, n),
        None => o,
    }
}
