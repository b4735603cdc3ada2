// The header of a case: what the call takes, and what it must answer.
ghost use Rattle.std.specs.Prelude.{◌≡◌, ◌+◌, cond, eqb, leb};
ghost use Rattle.row.specs.Field.{field_at};
ghost use Rattle.replay.specs.Cases.{case_of, must_of};

use crate::call;
use crate::call::Reply;
use row::table;

// The header's bytes.
pub const HEAD: usize = 56;

// A case's bytes at the most, its header among them.
pub const MOST: usize = 65_536;

#[derive(Clone, Copy)]
pub struct Case {
    pub call: usize,
    // The numbers that it takes.
    pub a: usize,
    pub b: usize,
    pub c: usize,
    pub d: usize,
    // The bytes of the first text, of the second, and of the lent buffer.
    pub first: usize,
    pub second: usize,
    pub lent: usize,
}

pub fn case_of(head: &[u8]) -> Case
    ensures { result ≡ case_of head.now }
{
    Case {
        call: table::field_at(head, 0, 4),
        a: table::field_at(head, 4, 4),
        b: table::field_at(head, 8, 4),
        c: table::field_at(head, 12, 4),
        d: table::field_at(head, 16, 4),
        first: table::field_at(head, 20, 4),
        second: table::field_at(head, 24, 4),
        lent: table::field_at(head, 28, 4),
    }
}

// What a step of a packet's reader must hand out; no other call hands out anything.
fn tag_of(head: &[u8]) -> usize
    ensures { result ≡ cond (eqb (field_at head.now 0 4) 16) (field_at head.now 12 4) 0 }
{
    if table::field_at(head, 0, 4) == call::STEP {
        return table::field_at(head, 12, 4);
    }
    0
}

pub fn must_of(head: &[u8]) -> Reply
    ensures { result ≡ must_of head.now }
{
    Reply {
        number: table::field_at(head, 32, 4),
        place: table::field_at(head, 36, 4),
        count: table::field_at(head, 40, 4),
        value: table::field_at(head, 48, 8),
        tag: tag_of(head),
    }
}

// Whether a case of two such texts and such a buffer, before and after, is within the limit.
pub fn fits(first: usize, second: usize, lent: usize) -> bool
    ensures { result ≡ leb (56 + first + second + lent + lent) 65536 }
{
    if MOST < first {
        return false;
    }
    if MOST < second {
        return false;
    }
    if MOST < lent {
        return false;
    }
    HEAD + first + second + lent + lent <= MOST
}
