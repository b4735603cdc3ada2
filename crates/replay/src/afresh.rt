// A ledger written afresh: a case's second text is the working space.
ghost use Rattle.std.specs.Prelude.{◌≡◌, ◌≤◌, length};
ghost use Rattle.replay.specs.Replies.{rewritten, rewritten_left};

use crate::call::Reply;
use crate::case::Case;
use crate::space;
use bus::field;

// The working space is lent in `work`.
pub fn rewritten(
    c: Case,
    first: &[u8],
    second: &[u8],
    lent: &mut [u8],
    work: &mut [u8],
) -> Option<Reply>
    requires { length second.now ≤ length work.old }
    ensures answer { result ≡ rewritten c first.now second.now lent.old }
    ensures bytes { lent.new ≡ rewritten_left first.now second.now lent.old }
{
    let n = second.len();
    field::copy_part(second, 0, n, work);
    let r = lumbrisse::lumbrisse_write(first, lent, &mut work[0..n]);
    let kept = space::is_wiped(second, &work[0..n], c.d);
    space::of_spaced(r, kept)
}
