// What stands at a place of a packet, and what is handed out of it.
ghost use Rattle.std.specs.Prelude.{◌≡◌};
ghost use Rattle.text.specs.Refusals.{refused_with};
ghost use Rattle.bus.specs.Refusals.{too_short};
ghost use Rattle.bus.specs.Fields.{row_tag};
ghost use Rattle.bus.specs.Reading.{field_fault, is_row, text_found, found, Hands, place_after};

use crate::field;
use amount::kind;
use row::table;
use text::bytes;
use text::stop::{CUT_SHORT, Refused, TOO_SHORT, WRONG_FIELD, refused_at};

// What is handed out at once: a row of an entry; or a row of a detail, with a text of so many bytes.
#[derive(Clone, Copy)]
pub enum Piece {
    Entry,
    Detail(usize),
}

// What stands at the front of the bytes left, if anything does; a refusal is placed by how many bytes stand before its
// field.
pub type Found = Result<Option<Piece>, Refused>;

// What a reader answers: what it hands out, and the place behind that; or nothing, at the packet's end.
pub type Step = Result<Option<(Piece, usize)>, Refused>;

// Of a field at a place: 19 where it is cut short, then 20 where it is not what is due.
fn field_fault(whole: bool, due: bool, place: usize) -> Result<(), Refused>
    ensures { result ≡ field_fault whole due place }
{
    if whole {
        if due {
            return Ok(());
        }
        return Err(refused_at(WRONG_FIELD, place));
    }
    Err(refused_at(CUT_SHORT, place))
}

// A buffer that has no room for so many bytes.
fn too_short(need: usize) -> Refused
    ensures { result ≡ refused_with too_short 0 need }
{
    Refused {
        number: TOO_SHORT,
        place: 0,
        count: need,
    }
}

fn row_tag(kind: usize) -> u8
    ensures { result ≡ row_tag kind }
{
    if kind < kind::FIRST_DETAIL {
        field::ENTRY
    } else {
        field::DETAIL
    }
}

// Whether the field at the front is a row's, with the tag of its kind.
fn is_row(r: &[u8]) -> bool
    ensures { result ≡ is_row r.now }
{
    let tag = bytes::peek(r, 0);
    let due = row_tag(table::field_at(r, field::HEAD, 4));
    (field::stated_length(r) == table::WIDTH) & (tag == due)
}

// A text is due.
fn find_text(r: &[u8]) -> Found
    ensures { result ≡ text_found r.now }
{
    let tag = bytes::peek(r, 0);
    field_fault(field::is_whole(r), tag == field::TEXT, field::ROW_FIELD)?;
    Ok(Some(Piece::Detail(field::stated_length(r))))
}

// A row is due.
fn find(r: &[u8]) -> Found
    ensures { result ≡ found r.now }
{
    if r.len() == 0 {
        return Ok(None);
    }
    field_fault(field::is_whole(r), is_row(r), 0)?;
    if table::field_at(r, field::HEAD, 4) < kind::FIRST_DETAIL {
        return Ok(Some(Piece::Entry));
    }
    find_text(&r[field::ROW_FIELD..])
}

// What stands at a place of a packet is handed out: a row, and the text of a detail.
pub fn hand_out(packet: &[u8], at: usize, row: &mut [u8], text: &mut [u8]) -> Step
    ensures { Hands packet.now at row.old text.old result row.new text.new }
{
    if packet.len() <= at {
        return Ok(None);
    }
    let rest = &packet[at..];
    let found = match find(rest) {
        Ok(found) => found,
        Err(refused) => return Err(refused_at(refused.number, at + refused.place)),
    };
    let Some(piece) = found else {
        return Ok(None);
    };
    if row.len() < table::WIDTH {
        return Err(too_short(table::WIDTH));
    }
    match piece {
        Piece::Entry => {
            field::copy_part(rest, field::HEAD, table::WIDTH, row);
            Ok(Some((piece, at + field::ROW_FIELD)))
        }
        Piece::Detail(n) => {
            if text.len() < n {
                return Err(too_short(n));
            }
            field::copy_part(rest, field::HEAD, table::WIDTH, row);
            field::copy_part(rest, field::TEXT_PLACE, n, text);
            Ok(Some((piece, at + field::TEXT_PLACE + n)))
        }
    }
}

// Where a reader stands after a step: behind what it handed out; a refusal does not move it.
pub fn next_place(x: Step, at: usize) -> usize
    ensures { result ≡ place_after at x }
{
    match x {
        Ok(Some((_, next))) => next,
        Ok(None) => at,
        Err(_) => at,
    }
}
