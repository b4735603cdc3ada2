// Amounts, and the content of a price directive (rule 10).
ghost use Rattle.std.specs.Prelude.{◌≡◌, [], ◌∷◌};
ghost use Rattle.amount.specs.Amounts.{amount, hard_amount, price_of};
ghost use Rattle.amount.specs.steps.Answers.{one_of, pair_of, amount_end, priced_from};

use crate::detail::Detail;
use crate::{detail, expression, kind};
use decimal::Value;
use text::stop::{Cause, Reading, Stop};
use text::{currency, line, stop};

// After the expression of a required amount, which spans at to e: gap, currency.
fn required_end(s: &[u8], kind: usize, at: usize, e: usize, v: Value) -> Reading<Detail>
    ensures { result ≡ one_of (amount_end kind s.now at e v) }
{
    let c = line::gap(s, e).ok_or(Stop::Hard(Cause::Missing, e))?;
    let d = currency::currency(s, c).ok_or(Stop::Hard(Cause::Missing, c))?;
    Ok((
        d,
        Detail {
            kind,
            start: at,
            end: e,
            p: c,
            q: d,
            value: v,
        },
    ))
}

// An amount (expression, gap, currency) each part of which is required. Its row is of the kind that the caller names.
pub fn required_amount(s: &[u8], at: usize, kind: usize) -> Reading<Detail>
    ensures { result ≡ one_of (hard_amount kind s.now at) }
{
    let (e, v) = stop::required(expression::expression_at(s, at), at)?;
    required_end(s, kind, at, e, v)
}

// An amount: the same, but for a missing part, which is a plain miss.
pub fn amount_at(s: &[u8], at: usize, kind: usize) -> Reading<Detail>
    ensures { result ≡ one_of (amount kind s.now at) }
{
    match required_amount(s, at, kind) {
        Err(Stop::Hard(Cause::Missing, _)) => Err(Stop::Miss),
        read => read,
    }
}

// After a price's currency, which spans at to e: gap, amount. The rows are the currency's and the amount's.
fn priced_from(s: &[u8], at: usize, e: usize) -> Reading<(Detail, Detail)>
    ensures { result ≡ pair_of (priced_from s.now at e) }
{
    let j = line::gap(s, e).ok_or(Stop::Hard(Cause::Missing, e))?;
    let (f, d) = required_amount(s, j, kind::AMOUNT)?;
    Ok((f, (detail::named(kind::CURRENCY, at, e, 0, 0), d)))
}

// Price: currency, gap, amount, each required.
pub fn price_at(s: &[u8], at: usize) -> Reading<(Detail, Detail)>
    ensures { result ≡ pair_of (price_of s.now at) }
{
    let e = currency::currency(s, at).ok_or(Stop::Hard(Cause::Missing, at))?;
    priced_from(s, at, e)
}
