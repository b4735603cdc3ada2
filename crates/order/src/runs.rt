// Runs of records with the same key in a sorted buffer.
ghost use Rattle.std.specs.Prelude.{◌≡◌, map, ◌-◌, ◌/◌, ◌<◌, ◌≤◌, length};
ghost use Rattle.row.specs.Row.{fields_in};
ghost use Rattle.order.specs.steps.Buffers.{record_room, Ordered, records_from, records_of, said_in};
ghost use Rattle.order.specs.Sums.{whole_from, summed};
ghost use Rattle.order.specs.Order.{by};
ghost use Rattle.order.specs.Groups.{listed, counted};
ghost use Rattle.order.specs.steps.Runs.{run_end};

use crate::record::RECORD;
use crate::{compare, sum};
use decimal::Value;
use text::stop::{Refused, refused_at};

// Up to which record a run goes, and the sum of its values.
#[derive(Clone, Copy)]
pub struct Run {
    pub end: usize,
    pub sum: Value,
}

// The number of the first record behind record i that has another key.
fn run_end(s: &[u8], t: &[u8], i: usize) -> usize
    requires { i < record_room t.now }
    ensures end { result ≡ run_end s.now t.now i }
    ensures within { (i < result) × (result ≤ record_room t.now) }
{
    let n = t.len() / RECORD;
    for j in i + 1..n {
        if compare::record_order(s, t, i, j).is_ne() {
            return j;
        }
    }
    n
}

// The run that starts with record i.
pub fn run_at(s: &[u8], t: &[u8], i: usize) -> Run
    requires { i < record_room t.now }
    ensures end { result.end ≡ run_end s.now t.now i }
    ensures within { (i < result.end) × (result.end ≤ record_room t.now) }
    ensures sum { result.sum ≡ summed (map (λ y. whole_from (fields_in y).bits) (records_from t.now i (result.end - i))) }
{
    let end = run_end(s, t, i);
    Run {
        end,
        sum: sum::sum(&t[i * RECORD..end * RECORD]),
    }
}

// How many items a sorted buffer has, one for each run; 6, at its start, for the first whose sum is too large.
pub fn count_runs(s: &[u8], t: &[u8]) -> Result<usize, Refused>
    requires { Ordered (by (said_in s.now)) (records_of t.now) }
    ensures { result ≡ counted (λ b. (fields_in b).start) 0 (listed (said_in s.now) (records_of t.now)) }
{
    let n = t.len() / RECORD;
    let mut i = 0;
    let mut k = 0;
    // A turn takes a whole run.
    while i < n {
        let run = run_at(s, t, i);
        if run.sum.is_err() {
            return Err(refused_at(usize::from(decimal::TOO_LARGE), compare::row_at(t, i).start));
        }
        i = run.end;
        k += 1;
    }
    Ok(k)
}
