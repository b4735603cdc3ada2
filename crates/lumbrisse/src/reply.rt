// Answers as document 01's numbers. An export gives back numbers by value: a struct for each form of answer.
ghost use Rattle.std.specs.Prelude.{◌≡◌};
ghost use Rattle.lumbrisse.specs.Numbers.{replied, refused_reply, reply_of, force_reply, evaluated_of, handed_by, handed_of};

use bus::packet::{Piece, Step};
use decimal::Decimal;
use text::stop::Refused;

// Number 0: accepted. What an answer has not is 0.
#[repr(C)]
#[derive(Clone, Copy)]
pub struct Reply {
    pub number: usize,
    pub place: usize,
    pub count: usize,
}

// Accepted: the place where the expression stops, and its value in two's complement.
#[repr(C)]
#[derive(Clone, Copy)]
pub struct Evaluated {
    pub number: usize,
    pub place: usize,
    pub bits: u64,
}

// What a step of a packet's reader hands out: the tag of the row's field, as C gets it.
const ENTRY: usize = 1;

const DETAIL: usize = 2;

const NOTHING: usize = 0;

// One step of a packet's reader. Accepted: the place behind what was handed out, an entry's row, a detail's row with a
// text of `count` bytes, or, at the packet's end, nothing.
#[repr(C)]
#[derive(Clone, Copy)]
pub struct Handed {
    pub number: usize,
    pub place: usize,
    pub tag: usize,
    pub count: usize,
}

// A part of the caller's own ledger.
#[repr(C)]
#[derive(Clone, Copy)]
pub struct Part {
    pub start: usize,
    pub length: usize,
}

fn replied(number: usize, place: usize, count: usize) -> Reply
    ensures { result ≡ replied number place count }
{
    Reply {
        number,
        place,
        count,
    }
}

fn refused_reply(refused: Refused) -> Reply
    ensures { result ≡ refused_reply refused }
{
    replied(refused.number, refused.place, refused.count)
}

// So many rows, items or bytes; or a refusal.
pub fn reply_of(a: Result<usize, Refused>) -> Reply
    ensures { result ≡ reply_of a }
{
    match a {
        Ok(count) => replied(0, 0, count),
        Err(refused) => refused_reply(refused),
    }
}

pub fn force_reply(a: Result<bool, Refused>) -> Reply
    ensures { result ≡ force_reply a }
{
    match a {
        Ok(force) => replied(0, 0, usize::from(force)),
        Err(refused) => refused_reply(refused),
    }
}

pub fn evaluated_of(a: Result<(usize, Decimal), Refused>) -> Evaluated
    ensures { result ≡ evaluated_of a }
{
    match a {
        Ok((stop, value)) => Evaluated {
            number: 0,
            place: stop,
            bits: decimal::row_bits(value),
        },
        Err(refused) => Evaluated {
            number: refused.number,
            place: refused.place,
            bits: 0,
        },
    }
}

fn handed_by(number: usize, place: usize, tag: usize, count: usize) -> Handed
    ensures { result ≡ handed_by number place tag count }
{
    Handed {
        number,
        place,
        tag,
        count,
    }
}

// Of a reader that stood at a place.
pub fn handed_of(x: Step, at: usize) -> Handed
    ensures { result ≡ handed_of at x }
{
    match x {
        Ok(Some((Piece::Entry, next))) => handed_by(0, next, ENTRY, 0),
        Ok(Some((Piece::Detail(count), next))) => handed_by(0, next, DETAIL, count),
        Ok(None) => handed_by(0, at, NOTHING, 0),
        Err(refused) => handed_by(refused.number, refused.place, NOTHING, refused.count),
    }
}
