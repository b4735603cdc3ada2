// Rows of a table: one by its number, and whether a tag is in force.
ghost use Rattle.std.specs.Prelude.{◌≡◌, ◌+◌, ◌*◌, ◌≤◌, length};
ghost use Rattle.row.specs.Row.{width};
ghost use Rattle.access.specs.Tables.{row_at, row_found, names, last_named, in_force};

use crate::span;
use amount::kind;
use row::table;
use row::table::{Row, WIDTH};
use text::stop::{NOT_VALID, Refused, refused_at};

// The row with a number, each field from its bytes.
pub fn row_of(t: &[u8], k: usize) -> Row
    requires { k * width + width ≤ length t.now }
    ensures { result ≡ row_at t.now k }
{
    let at = k * WIDTH;
    Row {
        kind: table::field_at(t, at + table::KIND, 4),
        start: table::field_at(t, at + table::START, 4),
        end: table::field_at(t, at + table::END, 4),
        line: table::field_at(t, at + table::LINE, 4),
        p: table::field_at(t, at + table::P, 4),
        q: table::field_at(t, at + table::Q, 4),
        bits: table::field_at(t, at + table::VALUE, 8),
    }
}

// The row with a number; 10 where the table has no such row.
pub fn row(t: &[u8], k: usize) -> Result<Row, Refused>
    ensures { result ≡ row_found t.now k }
{
    if k < t.len() / WIDTH {
        Ok(row_of(t, k))
    } else {
        Err(refused_at(NOT_VALID, 0))
    }
}

// Whether row j is a 4 or 5 whose next row is a 23 of the tag's bytes.
fn is_named(ledger: &[u8], t: &[u8], j: usize, tag: &[u8]) -> bool
    requires { j * width + 2 * width ≤ length t.now }
    ensures { result ≡ names ledger.now t.now tag.now j }
{
    let this = row_of(t, j);
    let kind = this.kind;
    if (kind == kind::PUSHTAG) | (kind == kind::POPTAG) {
        let next = row_of(t, j + 1);
        if next.kind == kind::TAG {
            let start = next.start;
            let end = next.end;
            if span::is_good(ledger, start, end) {
                return span::text_of(ledger, start, end) == tag;
            }
        }
    }
    false
}

// The kind of the last of the first n rows that names the tag, with its next row.
fn last_named(ledger: &[u8], t: &[u8], n: usize, tag: &[u8]) -> Option<usize>
    requires { n * width + width ≤ length t.now }
    ensures { result ≡ last_named ledger.now t.now tag.now n }
{
    for j in (0..n).rev() {
        if is_named(ledger, t, j, tag) {
            return Some(row_of(t, j).kind);
        }
    }
    None
}

// Whether a tag is in force after the first k rows; 10 for k over the room.
pub fn tag_in_force(ledger: &[u8], t: &[u8], k: usize, tag: &[u8]) -> Result<bool, Refused>
    ensures { result ≡ in_force ledger.now t.now k tag.now }
{
    if k == 0 {
        return Ok(false);
    }
    if t.len() / WIDTH < k {
        return Err(refused_at(NOT_VALID, 0));
    }
    match last_named(ledger, t, k - 1, tag) {
        Some(kind) => Ok(kind == kind::PUSHTAG),
        None => Ok(false),
    }
}
