// Records of a buffer: the fields of rows, in a width of their own.
ghost use Rattle.std.specs.Prelude.{◌≡◌, [], ◌∷◌};
ghost use Rattle.order.specs.steps.Buffers.{put_records_at};

use row::table;
use row::table::Row;

// A record's bytes.
pub const RECORD: usize = table::FIELDS;

// One row as record n, where it fits.
pub fn put_record(t: &mut [u8], n: usize, r: Row)
    ensures { t.new ≡ put_records_at n (r ∷ []) t.old }
{
    if n < t.len() / RECORD {
        let at = n * RECORD;
        table::put_fields(&mut t[at..at + RECORD], r);
    }
}
