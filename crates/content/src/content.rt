// What directives hold after their keyword (rule 10): each part is required, so rows are written as they are read.
ghost use Rattle.std.specs.Prelude.{◌≡◌};
ghost use Rattle.amount.specs.steps.Answers.{option_of};
ghost use Rattle.amount.specs.Amounts.{hard_currency, price_of};
ghost use Rattle.row.specs.steps.Writing.{Did, Writable, Readable};
ghost use Rattle.content.specs.Contents.{hard_account, hard_string, balance_of, pad_of, event_of};
ghost use Rattle.content.specs.steps.Parts.{past_gap, tolerance_of, tolerance_read, balance_end, balance_amount, content_of};

use crate::open;
use amount::detail::Detail;
use amount::{amounts, detail, expression, kind};
use decimal::Value;
use row::writer;
use row::writer::Out;
use text::run::Class;
use text::stop::{Cause, Reading, Stop};
use text::{account, currency, line, run, stop, string};

pub fn required_account(
    s: &[u8],
    at: usize,
    base: usize,
    table: &mut [u8],
    out: Out,
) -> Reading<Out>
    requires { Writable 1 base out }
    ensures { Did base (hard_account s.now at) out table.old table.new result }
{
    let e = stop::required(account::account(s, at), at)?;
    let d = detail::named(kind::ACCOUNT, at, e, 0, 0);
    Ok((e, writer::emit(table, base, out, d)))
}

fn required_currency(s: &[u8], at: usize, base: usize, table: &mut [u8], out: Out) -> Reading<Out>
    requires { Writable 1 base out }
    ensures { Did base (hard_currency s.now at) out table.old table.new result }
{
    let e = currency::currency(s, at).ok_or(Stop::Hard(Cause::Missing, at))?;
    let d = detail::named(kind::CURRENCY, at, e, 0, 0);
    Ok((e, writer::emit(table, base, out, d)))
}

pub fn required_string(s: &[u8], at: usize, base: usize, table: &mut [u8], out: Out) -> Reading<Out>
    requires { Writable 1 base out }
    ensures { Did base (hard_string s.now at) out table.old table.new result }
{
    let e = string::string(s, at).ok_or(Stop::Hard(Cause::Missing, at))?;
    let d = detail::named(kind::STRING, at + 1, e - 1, 0, 0);
    Ok((e, writer::emit(table, base, out, d)))
}

// Gap, account.
fn gap_account(s: &[u8], at: usize, base: usize, table: &mut [u8], out: Out) -> Reading<Out>
    requires { Writable 1 base out }
    ensures { Did base (past_gap hard_account s.now at) out table.old table.new result }
{
    let j = line::gap(s, at).ok_or(Stop::Hard(Cause::Missing, at))?;
    required_account(s, j, base, table, out)
}

// Pad: account, gap, account.
fn pad_at(s: &[u8], at: usize, base: usize, table: &mut [u8], out: Out) -> Reading<Out>
    requires { Writable 2 base out }
    ensures { Did base (pad_of s.now at) out table.old table.new result }
{
    let (e, o) = required_account(s, at, base, table, out)?;
    gap_account(s, e, base, table, o)
}

// Gap, string.
fn gap_hard_string(s: &[u8], at: usize, base: usize, table: &mut [u8], out: Out) -> Reading<Out>
    requires { Writable 1 base out }
    ensures { Did base (past_gap hard_string s.now at) out table.old table.new result }
{
    let j = line::gap(s, at).ok_or(Stop::Hard(Cause::Missing, at))?;
    required_string(s, j, base, table, out)
}

// Event (H): string, gap, string.
fn event_at(s: &[u8], at: usize, base: usize, table: &mut [u8], out: Out) -> Reading<Out>
    requires { Writable 2 base out }
    ensures { Did base (event_of s.now at) out table.old table.new result }
{
    let (e, o) = required_string(s, at, base, table, out)?;
    gap_hard_string(s, e, base, table, o)
}

// Price: currency, gap, amount.
fn price_content(s: &[u8], at: usize, base: usize, table: &mut [u8], out: Out) -> Reading<Out>
    requires { Writable 2 base out }
    ensures { Did base (price_of s.now at) out table.old table.new result }
{
    let (e, (unit, amount)) = amounts::price_at(s, at)?;
    let o = writer::emit(table, base, out, unit);
    Ok((e, writer::emit(table, base, o, amount)))
}

// Optionally blanks, `~`, blanks, expression.
fn tolerance_at(s: &[u8], at: usize) -> Reading<Option<Detail>>
    ensures { result ≡ option_of (tolerance_of s.now at) }
{
    let b = run::run(s, at, Class::Blank);
    if s.get(b) == Some(&b'~') {
        return tolerance_read(s, at, run::run(s, b + 1, Class::Blank));
    }
    Ok((at, None))
}

// A tolerance's expression at i, or nothing at `at`.
fn tolerance_read(s: &[u8], at: usize, i: usize) -> Reading<Option<Detail>>
    ensures { result ≡ option_of (tolerance_read s.now at i) }
{
    match expression::expression_at(s, i) {
        Ok((e, v)) => Ok((
            e,
            Some(Detail {
                kind: kind::TOLERANCE,
                start: i,
                end: e,
                p: 0,
                q: 0,
                value: v,
            }),
        )),
        Err(Stop::Miss) => Ok((at, None)),
        Err(hard) => Err(hard),
    }
}

// After a balance's tolerance t, or none: gap, currency, which the amount of g to e names.
fn balance_end(
    s: &[u8],
    at: usize,
    g: usize,
    e: usize,
    v: Value,
    t: Option<Detail>,
    base: usize,
    table: &mut [u8],
    out: Out,
) -> Reading<Out>
    requires { Writable 2 base out }
    ensures { Did base (balance_end g e v t s.now at) out table.old table.new result }
{
    let c = line::gap(s, at).ok_or(Stop::Hard(Cause::Missing, at))?;
    let d = currency::currency(s, c).ok_or(Stop::Hard(Cause::Missing, c))?;
    let amount = Detail {
        kind: kind::AMOUNT,
        start: g,
        end: e,
        p: c,
        q: d,
        value: v,
    };
    Ok((d, writer::emit_with(table, base, out, amount, t)))
}

// After a balance's account and gap: expression, optionally a tolerance, gap, currency.
fn balance_amount(s: &[u8], at: usize, base: usize, table: &mut [u8], out: Out) -> Reading<Out>
    requires { Writable 2 base out }
    ensures { Did base (balance_amount s.now at) out table.old table.new result }
{
    let (e, v) = stop::required(expression::expression_at(s, at), at)?;
    let (f, t) = tolerance_at(s, e)?;
    balance_end(s, f, at, e, v, t, base, table, out)
}

fn gap_balance(s: &[u8], at: usize, base: usize, table: &mut [u8], out: Out) -> Reading<Out>
    requires { Writable 2 base out }
    ensures { Did base (past_gap balance_amount s.now at) out table.old table.new result }
{
    let j = line::gap(s, at).ok_or(Stop::Hard(Cause::Missing, at))?;
    balance_amount(s, j, base, table, out)
}

// Balance: account, gap, expression, optionally a tolerance, gap, currency.
fn balance_at(s: &[u8], at: usize, base: usize, table: &mut [u8], out: Out) -> Reading<Out>
    requires { Writable 3 base out }
    ensures { Did base (balance_of s.now at) out table.old table.new result }
{
    let (e, o) = required_account(s, at, base, table, out)?;
    gap_balance(s, e, base, table, o)
}

// The content of the directive of a kind.
pub fn content_at(
    s: &[u8],
    at: usize,
    kind: usize,
    base: usize,
    table: &mut [u8],
    out: Out,
) -> Reading<Out>
    requires { Readable base s.now at out }
    ensures { Did base (content_of kind s.now at) out table.old table.new result }
{
    match kind {
        kind::PRICE => price_content(s, at, base, table, out),
        kind::BALANCE => balance_at(s, at, base, table, out),
        kind::OPEN => open::open_at(s, at, base, table, out),
        kind::CLOSE => required_account(s, at, base, table, out),
        kind::PAD => pad_at(s, at, base, table, out),
        kind::COMMODITY => required_currency(s, at, base, table, out),
        _ => event_at(s, at, base, table, out),
    }
}
