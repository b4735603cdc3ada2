// Working space that a call is lent beside its buffer: what was used of it must be zeros, the rest as it was.
ghost use Rattle.std.specs.Prelude.{◌≡◌};
ghost use Rattle.replay.specs.Replies.{zeros, wiped, of_spaced};

use crate::call::Reply;
use crate::compare;
use lumbrisse::reply;

fn is_zero(s: &[u8]) -> bool
    ensures { result ≡ zeros s.now }
{
    for &b in s {
        if b != 0 {
            return false;
        }
    }
    true
}

// Whether the first d bytes of a working space are zeros, and the others as they were.
pub fn is_wiped(before: &[u8], after: &[u8], d: usize) -> bool
    ensures { result ≡ wiped d before.now after.now }
{
    if before.len() < d {
        return false;
    }
    if after.len() < d {
        return false;
    }
    if is_zero(&after[0..d]) {
        return compare::is_same(&after[d..], &before[d..]);
    }
    false
}

// A reply, and whether the working space is as it must be.
pub fn of_spaced(r: reply::Reply, kept: bool) -> Option<Reply>
    ensures { result ≡ Some (of_spaced r kept) }
{
    if kept {
        return Some(Reply {
            number: r.number,
            place: r.place,
            count: r.count,
            value: 0,
            tag: 0,
        });
    }
    Some(Reply {
        number: r.number,
        place: r.place,
        count: r.count,
        value: 0,
        tag: 1,
    })
}
