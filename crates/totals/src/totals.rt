// Monthly totals of a ledger.
ghost use Rattle.std.specs.Prelude.{◌≡◌, map, true, ◌*◌, ◌≤◌, length};
ghost use Rattle.row.specs.Row.{fields_in};
ghost use Rattle.order.specs.Records.{record_width};
ghost use Rattle.ledger.specs.Plain.{plain};
ghost use Rattle.order.specs.steps.Buffers.{Ordered, records_of, said_in};
ghost use Rattle.order.specs.Order.{by};
ghost use Rattle.order.specs.Groups.{listed, counted};
ghost use Rattle.totals.specs.Totals.{is_month, decided, answer_of, items_left, Done};
ghost use Rattle.totals.specs.steps.Listing.{item_row_in, placed, items_put};
ghost use Rattle.totals.specs.steps.Months.{Accepted, month_postings, listed_month};

use crate::{listing, month};
use ledger::read;
use ledger::scan::Profile;
use order::record::RECORD;
use order::{runs, sort};
use row::work;
use text::stop;
use text::stop::Refused;

// Sorted records: their items are judged, then counted, then written.
fn list(s: &[u8], t: &[u8], items: &mut [u8]) -> Result<usize, Refused>
    requires { Ordered (by (said_in s.now)) (records_of t.now) }
    ensures answer { result ≡ placed (counted (λ b. (fields_in b).start) 0 (listed (said_in s.now) (records_of t.now))) (length items.old) }
    ensures bytes { items.new ≡ items_put (counted (λ b. (fields_in b).start) 0 (listed (said_in s.now) (records_of t.now)))
        (map item_row_in (listed (said_in s.now) (records_of t.now))) items.old }
{
    let k = runs::count_runs(s, t)?;
    if items.len() / RECORD < k {
        return Err(Refused {
            number: stop::TOO_SHORT,
            place: 0,
            count: k * RECORD,
        });
    }
    listing::put_items(s, t, items);
    Ok(k)
}

// The month's postings, whose records fill `work`, sorted and listed.
fn list_month(
    ledger: &[u8],
    year: usize,
    month: usize,
    items: &mut [u8],
    work: &mut [u8],
    spare: &mut [u8],
) -> Result<usize, Refused>
    requires { Accepted ledger.now × (length work.old ≡ length (month_postings ledger.now year month) * record_width) × (length work.old ≤ length spare.old) }
    ensures answer { result ≡ answer_of (listed_month ledger.now year month (length items.old)) }
    ensures items { items.new ≡ items_left (listed_month ledger.now year month (length items.old)) items.old }
{
    month::put(ledger, year, month, work);
    sort::sort(ledger, work, spare);
    list(ledger, work, items)
}

fn is_month(month: usize) -> bool
    ensures { result ≡ is_month month }
{
    (1 <= month) & (month <= 12)
}

// The totals of a month in a ledger that plain reading accepts; what was used of the working spaces is cleared.
fn month_totals(
    ledger: &[u8],
    year: usize,
    month: usize,
    items: &mut [u8],
    work: &mut [u8],
    spare: &mut [u8],
) -> Result<usize, Refused>
    requires { Accepted ledger.now × (is_month month ≡ true) }
    ensures { Done (decided ledger.now year month (length items.old) (length work.old) (length spare.old) (plain ledger.now))
        items.old work.old spare.old result items.new work.new spare.new }
{
    let n = month::count(ledger, year, month);
    let used = n * RECORD;
    if work.len() < used || spare.len() < used {
        return Err(Refused {
            number: stop::TOO_SHORT,
            place: 1,
            count: used,
        });
    }
    let listed = list_month(
        ledger,
        year,
        month,
        items,
        &mut work[0..used],
        &mut spare[0..used],
    );
    work::clear(work, used);
    work::clear(spare, used);
    listed
}

// The totals of a ledger for a year and month. Refusals: plain reading's, 15, 9 at place 1 for a working space, 6, 9 at
// place 0 for the items.
pub fn totals(
    ledger: &[u8],
    year: usize,
    month: usize,
    items: &mut [u8],
    work: &mut [u8],
    spare: &mut [u8],
) -> Result<usize, Refused>
    ensures { Done (decided ledger.now year month (length items.old) (length work.old) (length spare.old) (plain ledger.now))
        items.old work.old spare.old result items.new work.new spare.new }
{
    read::verdict(ledger, Profile::Plain)?;
    if is_month(month) {
        return month_totals(ledger, year, month, items, work, spare);
    }
    Err(stop::refused_at(stop::NO_MONTH, 0))
}
