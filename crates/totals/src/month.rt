// The postings of a month in a ledger that plain reading accepts: counted, and put as records.
ghost use Rattle.std.specs.Prelude.{◌≡◌, ◌≤◌, length};
ghost use Rattle.text.specs.Permitted.{size_limit};
ghost use Rattle.order.specs.steps.Buffers.{put_records};
ghost use Rattle.walk.specs.Postings.{dated};
ghost use Rattle.walk.specs.steps.Walks.{Standing};
ghost use Rattle.totals.specs.steps.Months.{Accepted, AllHeld, Next, month_postings};

use order::record;
use row::table::Row;
use walk::step;
use walk::step::Cursor;

// Before the first entry.
const START: Cursor = Cursor {
    at: 0,
    inside: None,
};

// The next posting, and where the walk goes on behind it.
fn next_posting(ledger: &[u8], from: Cursor, year: usize, month: usize) -> Option<(Cursor, Row)>
    requires { (length ledger.now ≤ size_limit) × Standing (dated year month) ledger.now from }
    ensures { Next (dated year month) ledger.now from result }
{
    let mut c = from;
    while let Some((next, posting)) = step::advance(ledger, c, year, month) {
        if let Some(p) = posting {
            return Some((next, p));
        }
        c = next;
    }
    None
}

// How many they are.
pub fn count(ledger: &[u8], year: usize, month: usize) -> usize
    requires { Accepted ledger.now }
    ensures count { result ≡ length (month_postings ledger.now year month) }
    ensures few { result ≤ size_limit }
{
    let mut c = START;
    let mut n = 0;
    while let Some((next, _)) = next_posting(ledger, c, year, month) {
        n += 1;
        c = next;
    }
    n
}

// One after the other, where they fit.
pub fn put(ledger: &[u8], year: usize, month: usize, records: &mut [u8])
    requires { Accepted ledger.now }
    ensures bytes { records.new ≡ put_records (month_postings ledger.now year month) records.old }
    ensures held { AllHeld (month_postings ledger.now year month) }
{
    let mut c = START;
    let mut n = 0;
    while let Some((next, posting)) = next_posting(ledger, c, year, month) {
        record::put_record(records, n, posting);
        n += 1;
        c = next;
    }
}
