// What the row of an entry writes: its date and its word, or a blank entry's bytes.
ghost use Rattle.std.specs.Prelude.{◌≡◌, ◌<◌};
ghost use Rattle.amount.specs.Kinds.{first_detail};
ghost use Rattle.layout.specs.Meaning.{item_of};
ghost use Rattle.layout.specs.Written.{head_text, closing};
ghost use Rattle.rewrite.specs.steps.Putting.{Put};
ghost use Rattle.rewrite.specs.steps.Pieces.{dated_text};

use crate::{number, put};
use amount::kind;
use row::table::Row;

// Behind an entry's date.
fn dated(kind: usize, next: usize, out: &mut [u8], at: usize) -> usize
    ensures { Put out.old at (dated_text kind next) out.new result }
{
    if kind == kind::TRANSACTION {
        if next == kind::FLAG {
            return at;
        }
        return put::copy(b" txn", out, at);
    }
    if kind == kind::PRICE {
        return put::copy(b" price", out, at);
    }
    if kind == kind::BALANCE {
        return put::copy(b" balance", out, at);
    }
    if kind == kind::OPEN {
        return put::copy(b" open", out, at);
    }
    if kind == kind::CLOSE {
        return put::copy(b" close", out, at);
    }
    if kind == kind::PAD {
        return put::copy(b" pad", out, at);
    }
    if kind == kind::COMMODITY {
        return put::copy(b" commodity", out, at);
    }
    put::copy(b" event", out, at)
}

// The row of an entry; next is the kind of the row behind it.
pub fn head(s: &[u8], x: Row, next: usize, out: &mut [u8], at: usize) -> usize
    requires { x.kind < first_detail }
    ensures { Put out.old at (head_text (item_of s.now x) next) out.new result }
{
    if x.kind == kind::BLANK {
        return put::span(s, x.start, x.end, out, at);
    }
    if x.kind == kind::OPTION {
        return put::copy(b"option", out, at);
    }
    if x.kind == kind::INCLUDE {
        return put::copy(b"include", out, at);
    }
    if x.kind == kind::PUSHTAG {
        return put::copy(b"pushtag", out, at);
    }
    if x.kind == kind::POPTAG {
        return put::copy(b"poptag", out, at);
    }
    let one = number::date(x.p, out, at);
    dated(x.kind, next, out, one)
}

// The line feed of an entry that has ended.
pub fn close(k: usize, out: &mut [u8], at: usize) -> usize
    ensures { Put out.old at (closing k) out.new result }
{
    if k <= kind::BLANK {
        return at;
    }
    if k == kind::PUSHTAG {
        return at;
    }
    if k == kind::POPTAG {
        return at;
    }
    put::put(out, at, b'\n')
}
