// Postings (rule 12), up to their line end. Where one misses, the rows that were written for it are covered by those
// that come next.
ghost use Rattle.std.specs.Prelude.{◌≡◌};
ghost use Rattle.row.specs.steps.Writing.{Did, Writable};
ghost use Rattle.posting.specs.Postings.{posting_line};
ghost use Rattle.posting.specs.steps.Parts.{flag_gap, costs_of, units_of, units_end, holder_of, flagged_of};

use crate::cost;
use amount::{amounts, detail, kind};
use row::writer;
use row::writer::Out;
use text::stop::{Reading, Stop};
use text::{account, bytes, line};

// A flag and a gap: the end of the gap.
fn flag_gap(s: &[u8], at: usize) -> Option<usize>
    ensures { result ≡ flag_gap s.now at }
{
    let b = *s.get(at)?;
    if b == 0 || bytes::is_small(b) {
        return None;
    }
    line::gap(s, at + 1)
}

// After the amount: optionally gap and cost, optionally gap and price.
fn costs_at(s: &[u8], at: usize, base: usize, table: &mut [u8], out: Out) -> Reading<Out>
    requires { Writable 4 base out }
    ensures { Did base (costs_of s.now at) out table.old table.new result }
{
    let (e, o) = cost::optional_cost(s, at, base, table, out)?;
    cost::optional_price(s, e, base, table, o)
}

// Optionally gap, amount, and what may follow it.
fn units_at(s: &[u8], at: usize, base: usize, table: &mut [u8], out: Out) -> Reading<Out>
    requires { Writable 5 base out }
    ensures { Did base (units_of s.now at) out table.old table.new result }
{
    let Some(j) = line::gap(s, at) else {
        return Ok((at, out));
    };
    match amounts::amount_at(s, j, kind::AMOUNT) {
        Ok((e, d)) => {
            let o = writer::emit(table, base, out, d);
            costs_at(s, e, base, table, o)
        }
        Err(Stop::Miss) => Ok((at, out)),
        Err(hard) => Err(hard),
    }
}

// After the account, whose row is written: units, line end.
fn units_end(s: &[u8], at: usize, base: usize, table: &mut [u8], out: Out) -> Reading<Out>
    requires { Writable 5 base out }
    ensures { Did base (units_end s.now at) out table.old table.new result }
{
    let (e, o) = units_at(s, at, base, table, out)?;
    let f = line::line_end(s, e).ok_or(Stop::Miss)?;
    Ok((f, o))
}

// The account of a posting, with its flag; units; line end.
fn holder_at(
    s: &[u8],
    at: usize,
    flag: usize,
    base: usize,
    table: &mut [u8],
    out: Out,
) -> Reading<Out>
    requires { Writable 6 base out }
    ensures { Did base (holder_of flag s.now at) out table.old table.new result }
{
    let e = account::account(s, at)?;
    let d = detail::named(kind::POSTING, at, e, flag, 0);
    let o = writer::emit(table, base, out, d);
    units_end(s, e, base, table, o)
}

// Optionally flag and gap, account, units, line end.
fn flagged_at(s: &[u8], at: usize, base: usize, table: &mut [u8], out: Out) -> Reading<Out>
    requires { Writable 6 base out }
    ensures { Did base (flagged_of s.now at) out table.old table.new result }
{
    match flag_gap(s, at) {
        Some(j) => holder_at(s, j, usize::from(bytes::peek(s, at)), base, table, out),
        None => holder_at(s, at, 0, base, table, out),
    }
}

// Rule 12, up to the line end.
pub fn posting_line(s: &[u8], at: usize, base: usize, table: &mut [u8], out: Out) -> Reading<Out>
    requires { Writable 6 base out }
    ensures { Did base (posting_line s.now at) out table.old table.new result }
{
    let j = line::gap(s, at).ok_or(Stop::Miss)?;
    flagged_at(s, j, base, table, out)
}
