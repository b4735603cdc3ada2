// The price and the cost of a posting (rules 12 and 13).
ghost use Rattle.std.specs.Prelude.{◌≡◌, map};
ghost use Rattle.amount.specs.steps.Answers.{one_of};
ghost use Rattle.row.specs.steps.Pouring.{pour_at};
ghost use Rattle.row.specs.steps.Writing.{laid, Did, outs, Writable};
ghost use Rattle.posting.specs.Costs.{price, inside, cost};
ghost use Rattle.posting.specs.steps.Lots.{brace_at, inside_with, lot_of, gap_amount, amount_date, date_amount, alone, date_first, optional_price, optional_cost};

use amount::detail::Detail;
use amount::{amounts, detail, kind};
use row::writer;
use row::writer::Out;
use text::run::Class;
use text::stop::{Reading, Stop};
use text::{date, line, run};

fn gap_amount(s: &[u8], at: usize, kind: usize) -> Reading<Detail>
    ensures { result ≡ one_of (gap_amount kind s.now at) }
{
    let j = line::gap(s, at).ok_or(Stop::Miss)?;
    amounts::amount_at(s, j, kind)
}

// Price: `@` or `@@`, gap, amount.
fn price_at(s: &[u8], at: usize) -> Reading<Detail>
    ensures { result ≡ one_of (price s.now at) }
{
    if s.get(at) == Some(&b'@') {
        if s.get(at + 1) == Some(&b'@') {
            return gap_amount(s, at + 2, kind::TOTAL_PRICE);
        }
        return gap_amount(s, at + 1, kind::UNIT_PRICE);
    }
    Err(Stop::Miss)
}

// Optionally gap and price.
pub fn optional_price(s: &[u8], at: usize, base: usize, table: &mut [u8], out: Out) -> Reading<Out>
    requires { Writable 1 base out }
    ensures { Did base (optional_price s.now at) out table.old table.new result }
{
    let Some(j) = line::gap(s, at) else {
        return Ok((at, out));
    };
    match price_at(s, j) {
        Ok((e, d)) => Ok((e, writer::emit(table, base, out, d))),
        Err(Stop::Miss) => Ok((at, out)),
        Err(hard) => Err(hard),
    }
}

// What stands in a cost's braces: the date or, as the row has it, 0, and the amount, if there is one.
#[derive(Clone, Copy)]
pub struct Inside {
    pub date: usize,
    pub amount: Option<Detail>,
}

fn inside_with(date: usize, amount: Option<Detail>) -> Inside
    ensures { result ≡ inside_with date amount }
{
    Inside { date, amount }
}

// After an amount: comma, date.
fn amount_date(s: &[u8], a: Reading<Detail>) -> Reading<Inside>
    ensures { result ≡ amount_date s.now a }
{
    let (e, n) = a?;
    let f = line::comma_at(s, e).ok_or(Stop::Miss)?;
    let (g, y) = date::date(s, f).ok_or(Stop::Miss)?;
    Ok((g, inside_with(y as usize, Some(n))))
}

// After a date: comma, amount.
fn date_amount(s: &[u8], d: Option<(usize, u32)>) -> Reading<Inside>
    ensures { result ≡ date_amount s.now d }
{
    let (e, y) = d.ok_or(Stop::Miss)?;
    let f = line::comma_at(s, e).ok_or(Stop::Miss)?;
    let (g, n) = amounts::amount_at(s, f, kind::AMOUNT)?;
    Ok((g, inside_with(y as usize, Some(n))))
}

// The amount alone, the date alone, or nothing.
fn alone_at(at: usize, a: Reading<Detail>, d: Option<(usize, u32)>) -> Reading<Inside>
    ensures { result ≡ alone at a d }
{
    match a {
        Ok((e, n)) => Ok((e, inside_with(0, Some(n)))),
        Err(Stop::Miss) => match d {
            Some((e, y)) => Ok((e, inside_with(y as usize, None))),
            None => Ok((at, inside_with(0, None))),
        },
        Err(hard) => Err(hard),
    }
}

fn date_first(s: &[u8], at: usize, a: Reading<Detail>) -> Reading<Inside>
    ensures { result ≡ date_first s.now at a }
{
    let d = date::date(s, at);
    match date_amount(s, d) {
        Err(Stop::Miss) => alone_at(at, a, d),
        read => read,
    }
}

// Rule 13, inside the braces: the first of five forms that reads. The amount at the front is read once for the forms
// that start with it.
fn inside_at(s: &[u8], at: usize) -> Reading<Inside>
    ensures { result ≡ lot_of (inside s.now at) }
{
    let a = amounts::amount_at(s, at, kind::AMOUNT);
    match amount_date(s, a) {
        Err(Stop::Miss) => date_first(s, at, a),
        read => read,
    }
}

// Blanks and `}`.
fn brace_at(s: &[u8], at: usize) -> Option<usize>
    ensures { result ≡ brace_at s.now at }
{
    let f = run::run(s, at, Class::Blank);
    if s.get(f) == Some(&b'}') {
        return Some(f + 1);
    }
    None
}

// Cost: `{`, blanks, what stands inside, blanks, `}`.
fn cost_at(s: &[u8], at: usize, base: usize, table: &mut [u8], out: Out) -> Reading<Out>
    requires { Writable 2 base out }
    ensures { Did base (cost s.now at) out table.old table.new result }
{
    if s.get(at) == Some(&b'{') {
        let (e, inside) = inside_at(s, run::run(s, at + 1, Class::Blank))?;
        let f = brace_at(s, e).ok_or(Stop::Miss)?;
        let cost = detail::named(kind::COST, at, f, inside.date, 0);
        return Ok((f, writer::emit_with(table, base, out, cost, inside.amount)));
    }
    Err(Stop::Miss)
}

// Optionally gap and cost.
pub fn optional_cost(s: &[u8], at: usize, base: usize, table: &mut [u8], out: Out) -> Reading<Out>
    requires { Writable 2 base out }
    ensures { Did base (optional_cost s.now at) out table.old table.new result }
{
    let Some(j) = line::gap(s, at) else {
        return Ok((at, out));
    };
    match cost_at(s, j, base, table, out) {
        Err(Stop::Miss) => Ok((at, out)),
        cost => cost,
    }
}
