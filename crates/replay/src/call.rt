// The calls that a box makes, each with its answer as four numbers.
ghost use Rattle.std.specs.Prelude.{◌≡◌, ◌≤◌, length};
ghost use Rattle.replay.specs.Replies.{of_reply, of_evaluated, of_part, outcome, left_by};

use crate::case::Case;
use crate::{afresh, change, display, month};
use lumbrisse::reply;

// The calls, by their numbers in case files, which may hold any.
pub const PLAIN: usize = 1;

pub const RECOVERING: usize = 2;

pub const SINGLE: usize = 3;

pub const CONTENT: usize = 4;

pub const SPAN: usize = 5;

pub const FORCE: usize = 6;

pub const STRICT: usize = 7;

pub const RECOVERING_STRICT: usize = 8;

pub const SINGLE_EXACT: usize = 9;

pub const TOTALS: usize = 10;

pub const STACKED: usize = 12;

pub const STACKED_EXACT: usize = 13;

pub const EDIT: usize = 14;

pub const PACKET: usize = 15;

pub const STEP: usize = 16;

pub const WRITE: usize = 17;

// Number 0: accepted. What an answer has not is 0.
#[derive(Clone, Copy)]
pub struct Reply {
    pub number: usize,
    pub place: usize,
    pub count: usize,
    // Two's complement.
    pub value: usize,
    // What a step of a packet's reader handed out; of a call with working space, 1 where it is not as it must be.
    pub tag: usize,
}

pub fn of_reply(r: reply::Reply) -> Option<Reply>
    ensures { result ≡ Some (of_reply r) }
{
    Some(Reply {
        number: r.number,
        place: r.place,
        count: r.count,
        value: 0,
        tag: 0,
    })
}

fn of_evaluated(e: reply::Evaluated) -> Option<Reply>
    ensures { result ≡ Some (of_evaluated e) }
{
    Some(Reply {
        number: e.number,
        place: e.place,
        count: 0,
        value: e.bits as usize,
        tag: 0,
    })
}

fn of_part(p: reply::Part) -> Option<Reply>
    ensures { result ≡ Some (of_part p) }
{
    Some(Reply {
        number: 0,
        place: p.start,
        count: p.length,
        value: 0,
        tag: 0,
    })
}

// The call of a case. A step of a packet's reader takes two buffers, and has `spare` for one of them; totals have
// `work` and `spare` for their working spaces, a ledger written afresh has `work`.
pub fn made(
    c: Case,
    first: &[u8],
    second: &[u8],
    lent: &mut [u8],
    spare: &mut [u8],
    work: &mut [u8],
) -> Option<Reply>
    requires { (length lent.old ≤ length spare.old) × (length second.now ≤ length spare.old) × (length second.now ≤ length work.old) }
    ensures answer { result ≡ outcome c first.now second.now lent.old }
    ensures bytes { lent.new ≡ left_by c first.now second.now lent.old }
{
    let call = c.call;
    match call {
        PLAIN => of_reply(lumbrisse::lumbrisse_read(first, lent)),
        RECOVERING => of_reply(lumbrisse::lumbrisse_recover(first, lent)),
        SINGLE => of_evaluated(lumbrisse::lumbrisse_expression(first)),
        CONTENT => of_reply(lumbrisse::lumbrisse_content(first, lent)),
        SPAN => of_part(lumbrisse::lumbrisse_span(first, c.a, c.b)),
        FORCE => of_reply(lumbrisse::lumbrisse_tag_in_force(first, lent, c.a, second)),
        STRICT => of_reply(lumbrisse::lumbrisse_read_strict(first, lent)),
        RECOVERING_STRICT => of_reply(lumbrisse::lumbrisse_recover_strict(first, lent)),
        SINGLE_EXACT => of_evaluated(lumbrisse::lumbrisse_expression_exact(first)),
        TOTALS => month::totalled(c, first, second, lent, spare, work),
        STACKED => of_evaluated(lumbrisse::lumbrisse_expression_stacked(first)),
        STACKED_EXACT => of_evaluated(lumbrisse::lumbrisse_expression_stacked_exact(first)),
        EDIT => change::edited(c, first, second, lent),
        PACKET => of_reply(lumbrisse::lumbrisse_packet_write(first, second, c.a, lent)),
        STEP => display::stepped(first, c.a, c.b, lent, spare),
        WRITE => afresh::rewritten(c, first, second, lent, work),
        _ => None,
    }
}
