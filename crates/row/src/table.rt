// A row's fields and its bytes, and rows written from the front of a table.
ghost use Rattle.std.specs.Prelude.{◌≡◌, [], ◌∷◌, ◌++◌, ◌/◌, ◌≤◌, ltb, length, drop};
ghost use Rattle.row.specs.Field.{field_at};
ghost use Rattle.row.specs.Row.{fields_width, field_bytes, fields_in, width, row_in};
ghost use Rattle.row.specs.steps.Pouring.{place_of, pour, pour_at};

use crate::field;

#[derive(Clone, Copy, Debug, PartialEq, Eq)]
pub struct Row {
    pub kind: usize,
    pub start: usize,
    pub end: usize,
    pub line: usize,
    pub p: usize,
    pub q: usize,
    // The value's eight bytes: two's complement.
    pub bits: usize,
}

// Where each field starts in a row's bytes, and the bytes of all.
pub const KIND: usize = 0;

pub const START: usize = 4;

pub const END: usize = 8;

pub const LINE: usize = 12;

pub const P: usize = 16;

pub const Q: usize = 20;

pub const VALUE: usize = 24;

pub const FIELDS: usize = 32;

// The numbers that a field of four bytes holds are below it.
pub const FIELD: usize = 4_294_967_296;

// A row's bytes.
pub const WIDTH: usize = FIELDS;

// Whether row n fits into a table of so many bytes.
pub fn fits(n: usize, size: usize) -> bool
    ensures { result ≡ ltb n (size / width) }
{
    n < size / WIDTH
}

// Where row n starts in a table of so many bytes, or the table's end.
pub fn place(n: usize, size: usize) -> usize
    ensures { result ≡ place_of n size }
{
    if n <= size / WIDTH { n * WIDTH } else { size }
}

// The fields of a row at the front of some bytes.
pub fn put_fields(t: &mut [u8], r: Row)
    requires { fields_width ≤ length t.old }
    ensures { t.new ≡ field_bytes r ++ drop fields_width t.old }
{
    field::put_four(t, KIND, r.kind);
    field::put_four(t, START, r.start);
    field::put_four(t, END, r.end);
    field::put_four(t, LINE, r.line);
    field::put_four(t, P, r.p);
    field::put_four(t, Q, r.q);
    let bits = r.bits;
    field::put_four(t, VALUE, bits);
    field::put_four(t, VALUE + 4, bits / FIELD);
}

// One row at the front of the table, where a whole row fits.
pub fn put_front(t: &mut [u8], r: Row)
    ensures { t.new ≡ pour (r ∷ []) t.old }
{
    if t.len() < WIDTH {
        return;
    }
    put_fields(t, r);
}

// One row as row n, where it fits: only its own bytes are lent on, so that their room is not looked at again.
pub fn put_row(t: &mut [u8], n: usize, r: Row)
    ensures { t.new ≡ pour_at n (r ∷ []) t.old }
{
    if n < t.len() / WIDTH {
        let at = n * WIDTH;
        put_front(&mut t[at..at + WIDTH], r);
    }
}

// The number in the `width` bytes at `at`, or, as the definition has it, 0 where they are more than eight or not all in
// the table.
pub fn field_at(t: &[u8], at: usize, width: usize) -> usize
    ensures { result ≡ field_at t.now at width }
{
    if 8 < width {
        return 0;
    }
    if t.len() < at {
        return 0;
    }
    if t.len() - at < width {
        return 0;
    }
    field::get(t, at, width)
}

// The row whose fields stand at the front of some bytes.
pub fn fields_in(t: &[u8]) -> Row
    requires { fields_width ≤ length t.now }
    ensures { result ≡ fields_in t.now }
{
    Row {
        kind: field::get_four(t, KIND),
        start: field::get_four(t, START),
        end: field::get_four(t, END),
        line: field::get_four(t, LINE),
        p: field::get_four(t, P),
        q: field::get_four(t, Q),
        bits: field::get_eight(t, VALUE),
    }
}

// The row whose bytes stand at the front of the table.
pub fn row_in(t: &[u8]) -> Row
    requires { width ≤ length t.now }
    ensures { result ≡ row_in t.now }
{
    fields_in(t)
}

// Where that row starts.
pub fn start_in(t: &[u8]) -> usize
    requires { width ≤ length t.now }
    ensures { result ≡ (row_in t.now).start }
{
    field::get_four(t, START)
}
