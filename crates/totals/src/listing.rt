// The items of sorted records: each is the first record of a run, with the run's number and sum.
ghost use Rattle.std.specs.Prelude.{◌≡◌, map, ◌/◌, ◌<◌, length};
ghost use Rattle.order.specs.steps.Buffers.{record_room, put_records, Ordered, record_at, records_of, said_in};
ghost use Rattle.order.specs.Order.{by};
ghost use Rattle.order.specs.Groups.{listed};
ghost use Rattle.totals.specs.steps.Listing.{head_row, item_row_in};

use decimal::Value;
use order::record::RECORD;
use order::{compare, record, runs};
use row::table::Row;
use row::writer;

// The row of the item whose first record is record i.
fn head_row(t: &[u8], i: usize, count: usize, sum: Value) -> Row
    requires { i < record_room t.now }
    ensures { result ≡ head_row (record_at t.now i) count sum }
{
    let first = compare::row_at(t, i);
    Row {
        kind: first.kind,
        start: first.start,
        end: first.end,
        line: count,
        p: first.p,
        q: first.q,
        bits: writer::value_bits(sum),
    }
}

// The items of a sorted buffer, one after the other, where they fit.
pub fn put_items(s: &[u8], t: &[u8], items: &mut [u8])
    requires { Ordered (by (said_in s.now)) (records_of t.now) }
    ensures { items.new ≡ put_records (map item_row_in (listed (said_in s.now) (records_of t.now))) items.old }
{
    let n = t.len() / RECORD;
    let mut i = 0;
    let mut k = 0;
    // A turn takes a whole run: no step that a range could count.
    while i < n {
        let run = runs::run_at(s, t, i);
        let row = head_row(t, i, run.end - i, run.sum);
        record::put_record(items, k, row);
        i = run.end;
        k += 1;
    }
}
