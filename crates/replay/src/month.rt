// Totals: a case's second text is the working space and, behind its first c bytes, the other.
ghost use Rattle.std.specs.Prelude.{◌≡◌, ◌≤◌, length};
ghost use Rattle.replay.specs.Replies.{both_wiped, totalled, totalled_left};

use crate::call::Reply;
use crate::case::Case;
use crate::space;
use bus::field;

// The same of both working spaces, of which `second` has the first in n bytes, and behind them the other.
fn is_kept(second: &[u8], n: usize, d: usize, work: &[u8], spare: &[u8]) -> bool
    requires { (n ≤ length second.now) × (length second.now ≤ length spare.now) × (length second.now ≤ length work.now) }
    ensures { result ≡ both_wiped n d second.now work.now spare.now }
{
    let m = second.len() - n;
    let one = space::is_wiped(&second[0..n], &work[0..n], d);
    let other = space::is_wiped(&second[n..], &spare[0..m], d);
    one & other
}

// Year a, month b; the working spaces are lent in `spare` and `work`.
pub fn totalled(
    c: Case,
    first: &[u8],
    second: &[u8],
    lent: &mut [u8],
    spare: &mut [u8],
    work: &mut [u8],
) -> Option<Reply>
    requires { (length second.now ≤ length spare.old) × (length second.now ≤ length work.old) }
    ensures answer { result ≡ totalled c first.now second.now lent.old }
    ensures bytes { lent.new ≡ totalled_left c first.now second.now lent.old }
{
    let n = c.c;
    if second.len() < n {
        return None;
    }
    let m = second.len() - n;
    field::copy_part(second, 0, n, work);
    field::copy_part(second, n, m, spare);
    let r = lumbrisse::lumbrisse_totals(first, c.a, c.b, lent, &mut work[0..n], &mut spare[0..m]);
    let kept = is_kept(second, n, c.d, work, spare);
    space::of_spaced(r, kept)
}
