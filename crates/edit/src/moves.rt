// Rows that are moved, modulo 4,294,967,296.
ghost use Rattle.std.specs.Prelude.{◌≡◌, cond, ◌||◌, ◌*◌, ◌+◌, ◌≤◌, eqb, length};
ghost use Rattle.amount.specs.Kinds.{refusal_kind};
ghost use Rattle.row.specs.Row.{width};
ghost use Rattle.row.specs.Details.{spanned};
ghost use Rattle.row.specs.Field.{field_limit};
ghost use Rattle.edit.specs.Edits.{move_on};
ghost use Rattle.edit.specs.steps.Moving.{Small, shift_by, moved_in};

use amount::kind;
use row::table::{FIELD, Row, WIDTH};
use row::{table, writer};

// So many bytes and lines on.
#[derive(Clone, Copy)]
pub struct By {
    pub places: usize,
    pub lines: usize,
}

// A number, moved if so asked.
fn move_if(asked: bool, d: usize, x: usize) -> usize
    requires { d ≤ field_limit + field_limit }
    ensures { result ≡ cond asked (move_on d x) x }
{
    if asked {
        return (x % FIELD + d) % FIELD;
    }
    x
}

// Kinds whose q is a place.
fn moves_q(kind: usize) -> bool
    ensures { result ≡ (spanned kind || eqb kind refusal_kind) }
{
    writer::is_spanned(kind) | (kind == kind::REFUSAL)
}

pub fn shift_row(r: Row, b: By) -> Row
    requires { Small b }
    ensures { result ≡ shift_by b r }
{
    let kind = r.kind;
    let d = b.places;
    Row {
        kind,
        start: move_if(true, d, r.start),
        end: move_if(true, d, r.end),
        line: move_if(true, b.lines, r.line),
        p: move_if(writer::is_spanned(kind), d, r.p),
        q: move_if(moves_q(kind), d, r.q),
        bits: r.bits,
    }
}

// The first n rows of a table are moved where they stand.
pub fn move_rows(t: &mut [u8], n: usize, b: By)
    requires { (n * width ≤ length t.old) × Small b }
    ensures { t.new ≡ moved_in b n t.old }
{
    for i in 0..n {
        let r = table::row_in(&t[i * WIDTH..]);
        table::put_row(t, i, shift_row(r, b));
    }
}
