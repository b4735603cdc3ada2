// Literals of any length (rule 9). The digits before the point, those after it, and what both come to.
ghost use Rattle.std.specs.Prelude.{◌≡◌, false, cond, ◌+◌, ◌*◌, ◌<◌, ◌≤◌, eqb, drop, length, get_or};
ghost use Rattle.amount.specs.Literal.{unsigned, literal};
ghost use Rattle.amount.specs.steps.Kept.{whole_from, fraction_from, factor, kept_value, whole_literal, point_literal, whole_limit, kept_limit};
ghost use Rattle.amount.specs.steps.Answers.{answer_of};

use decimal::Value;
use text::run::Class;
use text::stop::{Reading, Stop};
use text::{bytes, run};

// The digits before a point: where they end, their number, which stops growing once it is too large, and whether there
// are any.
#[derive(Clone, Copy)]
struct Whole {
    end: usize,
    size: u64,
    digits: bool,
}

// The digits before and after a point: where they end, the number of those that are kept, how many of these stand after
// the point, six at most, whether there are any, and whether one that is not kept is not 0.
#[derive(Clone, Copy)]
struct Fraction {
    end: usize,
    size: u64,
    places: u64,
    digits: bool,
    tail: bool,
}

fn whole_part(s: &[u8], at: usize) -> Whole
    ensures value { result ≡ whole_from 0 false (drop at s.now) at }
    ensures size_lt_whole_limit { result.size < whole_limit }
{
    let mut size: u64 = 0;
    let mut digits = false;
    for i in at..s.len() {
        let b = s[i];
        if !bytes::is_digit(b) {
            if b == b',' {
                continue;
            }
            return Whole {
                end: i,
                size,
                digits,
            };
        }
        digits = true;
        if size < 1_000_000_000 {
            size = size * 10 + u64::from(b - b'0');
        }
    }
    Whole {
        end: at.max(s.len()),
        size,
        digits,
    }
}

// The digits after the point, which ends at `at`; `before` is the number of those before it, and `any` says whether
// there are any.
fn fraction_part(s: &[u8], at: usize, before: u64, any: bool) -> Fraction
    requires { before < whole_limit }
    ensures value { result ≡ fraction_from before 0 any false (drop at s.now) at }
    ensures places_bound { result.size * factor result.places ≤ kept_limit }
{
    let mut size = before;
    let mut places: u64 = 0;
    let mut digits = any;
    let mut tail = false;
    for i in at..s.len() {
        let b = s[i];
        if !bytes::is_digit(b) {
            if b == b',' {
                continue;
            }
            return Fraction {
                end: i,
                size,
                places,
                digits,
                tail,
            };
        }
        digits = true;
        if places < 6 {
            size = size * 10 + u64::from(b - b'0');
            places += 1;
        } else if b != b'0' {
            tail = true;
        }
    }
    Fraction {
        end: at.max(s.len()),
        size,
        places,
        digits,
        tail,
    }
}

fn power(places: u64) -> u64
    ensures { result ≡ factor places }
{
    match places {
        0 => 1_000_000,
        1 => 100_000,
        2 => 10_000,
        3 => 1_000,
        4 => 100,
        5 => 10,
        _ => 1,
    }
}

// The value of a whole part, and of its digits with those of so many places after the point.
fn value(minus: bool, whole: u64, size: u64, places: u64, tail: bool) -> Value
    requires { size * factor places ≤ kept_limit }
    ensures { result ≡ kept_value minus whole size places tail }
{
    if 1_000_000_000 <= whole {
        return Err(decimal::TOO_LARGE);
    }
    let f = power(places);
    if tail {
        decimal::judged(minus, size * f, 1)
    } else {
        decimal::judged(minus, size * f, 0)
    }
}

// A literal with no point.
fn without_point(minus: bool, w: Whole) -> Reading<Value>
    requires { w.size < whole_limit }
    ensures { result ≡ answer_of (whole_literal minus w) }
{
    let size = w.size;
    if w.digits {
        Ok((w.end, value(minus, size, size, 0, false)))
    } else {
        Err(Stop::Miss)
    }
}

// A literal with a point after its whole part: a second point makes it a miss.
fn with_point(minus: bool, s: &[u8], w: Whole) -> Reading<Value>
    requires { (w.size < whole_limit) × (w.end < length s.now) }
    ensures { result ≡ answer_of (point_literal minus s.now w) }
{
    let point = w.end;
    let f = fraction_part(s, point + 1, w.size, w.digits);
    let end = f.end;
    if bytes::peek(s, end) == b'.' {
        return Err(Stop::Miss);
    }
    if f.digits {
        Ok((end, value(minus, w.size, f.size, f.places, f.tail)))
    } else {
        Err(Stop::Miss)
    }
}

// A literal whose sign, if any, ends at a place.
fn unsigned_at(minus: bool, s: &[u8], at: usize) -> Reading<Value>
    ensures { result ≡ answer_of (unsigned minus s.now at) }
{
    let w = whole_part(s, run::run(s, at, Class::Space));
    let end = w.end;
    if end < s.len() {
        if s[end] == b'.' {
            return with_point(minus, s, w);
        }
    }
    without_point(minus, w)
}

// Where a sign ends, or the place where none stands.
fn sign_end(s: &[u8], at: usize) -> usize
    ensures { result ≡ cond (eqb (get_or s.now at 0) 45) (at + 1) at }
{
    if bytes::peek(s, at) == b'-' {
        at + 1
    } else {
        at
    }
}

// Rule 9. An expression is its only caller.
pub fn literal_at(s: &[u8], at: usize) -> Reading<Value>
    ensures { result ≡ answer_of (literal s.now at) }
{
    let minus = bytes::peek(s, at) == b'-';
    unsigned_at(minus, s, sign_end(s, at))
}
