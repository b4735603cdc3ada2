// The exact sum of the values of records: a running sum may be of any size.
ghost use Rattle.std.specs.Prelude.{◌≡◌, map, ◌+◌, ◌≤◌};
ghost use Rattle.decimal.specs.Exact.{exactly};
ghost use Rattle.row.specs.Row.{fields_in};
ghost use Rattle.order.specs.steps.Buffers.{records_of};
ghost use Rattle.order.specs.Sums.{whole_from, summed};
ghost use Rattle.order.specs.steps.Wide.{size, held};

use crate::compare;
use crate::record::RECORD;
use decimal::Value;

// A whole number in two words. The upper one starts at the number of records, so that it never falls below zero.
#[derive(Clone, Copy)]
struct Wide {
    high: u64,
    low: u64,
}

const HALF: u64 = 9_223_372_036_854_775_808;

const LAST: u64 = u64::MAX;

fn plus(w: Wide, x: u64) -> Wide
    requires { w.high ≤ 18446744073709551614 }
    ensures { (size result ≡ size w + x) × (w.high ≤ result.high) × (result.high ≤ w.high + 1) }
{
    let (low, carry) = w.low.overflowing_add(x);
    Wide {
        high: w.high + u64::from(carry),
        low,
    }
}

fn less(w: Wide, x: u64) -> Wide
    requires { 1 ≤ w.high }
    ensures { (size result + x ≡ size w) × (result.high ≤ w.high) × (w.high ≤ result.high + 1) }
{
    let (low, borrow) = w.low.overflowing_sub(x);
    Wide {
        high: w.high - u64::from(borrow),
        low,
    }
}

// What is over n in the upper word, or less than that: within the size limit, or refused with 6.
fn judged(w: Wide, n: u64) -> Value
    ensures { result ≡ exactly (held n w) 1 }
{
    let low = w.low;
    if w.high == n {
        return decimal::judged(false, low, 0);
    }
    if w.high < n && n - w.high == 1 && 0 < low {
        return decimal::judged(true, LAST - low + 1, 0);
    }
    Err(decimal::TOO_LARGE)
}

// The sum of the values of all records of a buffer.
pub fn sum(t: &[u8]) -> Value
    ensures { result ≡ summed (map (λ y. whole_from (fields_in y).bits) (records_of t.now)) }
{
    let n = t.len() / RECORD;
    let count = n as u64;
    let mut w = Wide {
        high: count,
        low: 0,
    };
    for i in 0..n {
        let bits = compare::row_at(t, i).bits as u64;
        if bits < HALF {
            w = plus(w, bits);
        } else {
            w = less(w, LAST - bits + 1);
        }
    }
    judged(w, count)
}
