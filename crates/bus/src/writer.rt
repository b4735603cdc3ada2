// Packets, written from the rows of a table.
ghost use Rattle.std.specs.Prelude.{◌≡◌, ◌+◌, ◌*◌, ◌≤◌, length};
ghost use Rattle.std.proofs.lemmas.List.Edits.{sets};
ghost use Rattle.row.specs.Row.{width};
ghost use Rattle.bus.specs.Writing.{row_fields, packet, written, written_left};
ghost use Rattle.bus.specs.steps.Measuring.{row_measured, measured_from};
ghost use Rattle.bus.specs.steps.Putting.{RowFits, RowsFit};

use crate::field;
use access::{span, tables};
use amount::kind;
use row::{table, work};
use text::stop::{NOT_VALID, Refused, TEXT_TOO_LARGE, TOO_SHORT, refused_at};

// How long the fields of the row at the front are, or what refuses it.
fn measure_row(ledger: &[u8], u: &[u8]) -> Result<usize, Refused>
    requires { width ≤ length u.now }
    ensures { result ≡ row_measured ledger.now u.now }
{
    let r = tables::row_of(u, 0);
    if r.kind < kind::FIRST_DETAIL {
        return Ok(field::ROW_FIELD);
    }
    let start = r.start;
    let end = r.end;
    if span::is_good(ledger, start, end) {
        let text = span::text_of(ledger, start, end);
        if text.len() <= field::LONGEST {
            return Ok(field::TEXT_PLACE + text.len());
        }
        return Err(refused_at(TEXT_TOO_LARGE, 0));
    }
    Err(refused_at(NOT_VALID, 0))
}

// The row at the front of a table to `buffer`, from place `at` on: the place behind it.
fn put_row(ledger: &[u8], u: &[u8], buffer: &mut [u8], at: usize) -> usize
    requires { RowFits ledger.now u.now at (length buffer.old) }
    ensures place { result ≡ at + length (row_fields ledger.now u.now) }
    ensures bytes { buffer.new ≡ sets buffer.old at (row_fields ledger.now u.now) }
{
    let front = tables::row_of(u, 0);
    let row = &u[0..table::WIDTH];
    if front.kind < kind::FIRST_DETAIL {
        return field::put_field(field::ENTRY, row, buffer, at);
    }
    let text = span::text_of(ledger, front.start, front.end);
    let next = field::put_field(field::DETAIL, row, buffer, at);
    field::put_field(field::TEXT, text, buffer, next)
}

// The length of the packet of n rows, or the first fault.
fn measure(ledger: &[u8], t: &[u8], n: usize) -> Result<usize, Refused>
    requires { n * width ≤ length t.now }
    ensures { result ≡ measured_from ledger.now n t.now 0 }
{
    let mut total = 0;
    for k in 0..n {
        let size = measure_row(ledger, &t[k * table::WIDTH..])?;
        total = work::add(total, size);
    }
    Ok(total)
}

// The packet of n rows to the front of `buffer`.
fn put_rows(ledger: &[u8], t: &[u8], n: usize, buffer: &mut [u8])
    requires { RowsFit ledger.now t.now n (length buffer.old) }
    ensures { buffer.new ≡ sets buffer.old 0 (packet ledger.now n t.now) }
{
    let mut at = 0;
    for k in 0..n {
        at = put_row(ledger, &t[k * table::WIDTH..], buffer, at);
    }
}

// The packet of the first n rows of a table to the front of `buffer`. 10 and 18 row by row, then 9.
pub fn write(ledger: &[u8], t: &[u8], n: usize, buffer: &mut [u8]) -> Result<usize, Refused>
    ensures answer { result ≡ written ledger.now n t.now (length buffer.old) }
    ensures bytes { buffer.new ≡ written_left ledger.now n t.now buffer.old }
{
    if t.len() / table::WIDTH < n {
        return Err(refused_at(NOT_VALID, 0));
    }
    let k = measure(ledger, t, n)?;
    if buffer.len() < k {
        return Err(Refused {
            number: TOO_SHORT,
            place: 0,
            count: k,
        });
    }
    put_rows(ledger, t, n, buffer);
    Ok(k)
}
