// An edit: the rows that are given, the first d bytes of a case's second text, and the new bytes stand one behind the
// other.
ghost use Rattle.std.specs.Prelude.{◌≡◌};
ghost use Rattle.replay.specs.Replies.{edited, edited_left};

use crate::call;
use crate::call::Reply;
use crate::case::Case;

// The block from a to b is replaced; c rows are given.
pub fn edited(c: Case, first: &[u8], second: &[u8], lent: &mut [u8]) -> Option<Reply>
    ensures answer { result ≡ edited c first.now second.now lent.old }
    ensures bytes { lent.new ≡ edited_left c first.now second.now lent.old }
{
    let d = c.d;
    if second.len() < d {
        return None;
    }
    let r = lumbrisse::lumbrisse_edit(first, &second[0..d], c.c, c.a, c.b, &second[d..], lent);
    call::of_reply(r)
}
