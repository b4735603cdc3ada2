// Values and dates in digits.
ghost use Rattle.std.specs.Prelude.{◌≡◌, [], ◌∷◌, ◌+◌, ◌/◌, ◌%◌};
ghost use Rattle.layout.specs.Written.{digit, whole_text, fraction_text, size_text, value_text, date_text};
ghost use Rattle.rewrite.specs.steps.Putting.{Put, Kept};

use crate::put;

// The first number of eight bytes that is below zero, in two's complement.
const BELOW_ZERO: usize = 9_223_372_036_854_775_808;

fn digit_of(n: usize) -> u8
    ensures { result ≡ digit n }
{
    (48 + n % 10) as u8
}

// A whole number: k + 1 digits at the most.
fn whole(k: usize, n: usize, out: &mut [u8], at: usize) -> usize
    ensures { Put out.old at (whole_text k n) out.new result }
{
    if k == 0 {
        return put::put(out, at, digit_of(n));
    }
    if n < 10 {
        return put::put(out, at, digit_of(n));
    }
    let next = whole(k - 1, n / 10, out, at);
    put::put(out, next, digit_of(n))
}

// How many digits are left without trailing zeros.
fn kept(d: &[u8]) -> usize
    ensures { Kept d.now result }
{
    for i in (0..d.len()).rev() {
        if d[i] != b'0' {
            return i + 1;
        }
    }
    0
}

// A point and digits, or nothing.
fn fraction(n: usize, out: &mut [u8], at: usize) -> usize
    ensures { Put out.old at (fraction_text n) out.new result }
{
    // Many values are whole: none of their digits is looked at.
    if n == 0 {
        return at;
    }
    let d = [
        digit_of(n / 100000),
        digit_of(n / 10000),
        digit_of(n / 1000),
        digit_of(n / 100),
        digit_of(n / 10),
        digit_of(n),
    ];
    let e = kept(&d);
    if e == 0 {
        return at;
    }
    let next = put::put(out, at, b'.');
    put::span(&d, 0, e, out, next)
}

// So many millionths.
fn size(n: usize, out: &mut [u8], at: usize) -> usize
    ensures { Put out.old at (size_text n) out.new result }
{
    let next = whole(8, n / 1000000, out, at);
    fraction(n % 1000000, out, next)
}

// A row's value.
pub fn value(v: usize, out: &mut [u8], at: usize) -> usize
    ensures { Put out.old at (value_text v) out.new result }
{
    if BELOW_ZERO <= v {
        let next = put::put(out, at, b'-');
        return size(usize::MAX - v + 1, out, next);
    }
    size(v, out, at)
}

fn pair(n: usize, out: &mut [u8], at: usize) -> usize
    ensures { Put out.old at (digit (n / 10) ∷ digit n ∷ []) out.new result }
{
    put::put_two(out, at, digit_of(n / 10), digit_of(n))
}

// A pair of digits behind a hyphen.
fn hyphened(n: usize, out: &mut [u8], at: usize) -> usize
    ensures { Put out.old at (45 ∷ digit (n / 10) ∷ digit n ∷ []) out.new result }
{
    let next = put::put(out, at, b'-');
    pair(n, out, next)
}

pub fn date(p: usize, out: &mut [u8], at: usize) -> usize
    ensures { Put out.old at (date_text p) out.new result }
{
    let a = pair(p / 1000000, out, at);
    let b = pair(p / 10000, out, a);
    let c = hyphened(p / 100, out, b);
    hyphened(p, out, c)
}
