// The open directive (rule 10): account, optionally gap and currencies, optionally gap and string.
ghost use Rattle.std.specs.Prelude.{◌≡◌};
ghost use Rattle.amount.specs.steps.Answers.{one_of};
ghost use Rattle.row.specs.steps.Writing.{Did, Writable, Readable};
ghost use Rattle.content.specs.Contents.{one_currency, further, booking, open_of};
ghost use Rattle.content.specs.steps.Parts.{gap_currency, furthers, currencies_of, booking_of, listed_of};

use crate::content;
use amount::detail::Detail;
use amount::{detail, kind};
use row::writer;
use row::writer::Out;
use text::stop::{Reading, Stop};
use text::{currency, line, string};

fn one_currency(s: &[u8], at: usize) -> Reading<Detail>
    ensures { result ≡ one_of (one_currency s.now at) }
{
    let e = currency::currency(s, at).ok_or(Stop::Miss)?;
    Ok((e, detail::named(kind::CURRENCY, at, e, 0, 0)))
}

// A comma, with blanks around, and a currency.
fn further_at(s: &[u8], at: usize) -> Reading<Detail>
    ensures { result ≡ one_of (further s.now at) }
{
    let j = line::comma_at(s, at).ok_or(Stop::Miss)?;
    one_currency(s, j)
}

// The currencies after the first.
fn furthers_at(s: &[u8], at: usize, base: usize, table: &mut [u8], out: Out) -> Reading<Out>
    requires { Readable base s.now at out }
    ensures { Did base (furthers s.now at) out table.old table.new result }
{
    let mut i = at;
    let mut o = out;
    // A turn goes on by the bytes that it read: no step that a range could count.
    while i < s.len() {
        match further_at(s, i) {
            Ok((e, d)) => {
                o = writer::emit(table, base, o, d);
                i = e;
            }
            Err(Stop::Miss) => return Ok((i, o)),
            Err(hard) => return Err(hard),
        }
    }
    Ok((i, o))
}

// Gap and a first currency.
fn gap_currency(s: &[u8], at: usize) -> Reading<Detail>
    ensures { result ≡ one_of (gap_currency s.now at) }
{
    let j = line::gap(s, at).ok_or(Stop::Miss)?;
    one_currency(s, j)
}

// Optionally gap and currencies.
fn currencies_at(s: &[u8], at: usize, base: usize, table: &mut [u8], out: Out) -> Reading<Out>
    requires { Readable base s.now at out }
    ensures { Did base (currencies_of s.now at) out table.old table.new result }
{
    match gap_currency(s, at) {
        Ok((e, d)) => {
            let o = writer::emit(table, base, out, d);
            furthers_at(s, e, base, table, o)
        }
        Err(Stop::Miss) => Ok((at, out)),
        Err(hard) => Err(hard),
    }
}

// A booking's string.
fn gap_booking(s: &[u8], at: usize) -> Reading<Detail>
    ensures { result ≡ one_of (booking s.now at) }
{
    let j = line::gap(s, at).ok_or(Stop::Miss)?;
    let e = string::string(s, j).ok_or(Stop::Miss)?;
    Ok((e, detail::named(kind::BOOKING, j + 1, e - 1, 0, 0)))
}

// Optionally gap and string.
fn booking_at(s: &[u8], at: usize, base: usize, table: &mut [u8], out: Out) -> Reading<Out>
    requires { Writable 1 base out }
    ensures { Did base (booking_of s.now at) out table.old table.new result }
{
    match gap_booking(s, at) {
        Ok((e, d)) => Ok((e, writer::emit(table, base, out, d))),
        Err(Stop::Miss) => Ok((at, out)),
        Err(hard) => Err(hard),
    }
}

// After the account: optionally gap and currencies, optionally gap and string.
fn listed_at(s: &[u8], at: usize, base: usize, table: &mut [u8], out: Out) -> Reading<Out>
    requires { Readable base s.now at out }
    ensures { Did base (listed_of s.now at) out table.old table.new result }
{
    let (e, o) = currencies_at(s, at, base, table, out)?;
    booking_at(s, e, base, table, o)
}

pub fn open_at(s: &[u8], at: usize, base: usize, table: &mut [u8], out: Out) -> Reading<Out>
    requires { Readable base s.now at out }
    ensures { Did base (open_of s.now at) out table.old table.new result }
{
    let (e, o) = content::required_account(s, at, base, table, out)?;
    listed_at(s, e, base, table, o)
}
