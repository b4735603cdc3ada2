// The records of a buffer, sorted by halves.
ghost use Rattle.std.specs.Prelude.{◌≡◌, cond, ◌++◌, ◌+◌, ◌*◌, ◌/◌, ◌≤◌, leb, length, drop};
ghost use Rattle.std.proofs.Math.Seq.{paste};
ghost use Rattle.order.specs.steps.Buffers.{sorted_bytes, record_room};
ghost use Rattle.order.specs.steps.Merge.{left_first, merging};
ghost use Rattle.order.specs.Records.{record_width};

use crate::compare;
use crate::record::RECORD;
use row::work;

// Record i, over record k.
fn copy_record(from: &[u8], i: usize, to: &mut [u8], k: usize)
    requires { (i * record_width + record_width ≤ length from.now) × (k * record_width + record_width ≤ length to.old) }
    ensures { to.new ≡ paste to.old (k * record_width) (drop (i * record_width) from.now) record_width }
{
    let a = i * RECORD;
    let b = k * RECORD;
    work::copy_over(&from[a..a + RECORD], &mut to[b..b + RECORD]);
}

// Whether record i comes next, where records i to m and j to n are left.
fn left_first(s: &[u8], t: &[u8], i: usize, m: usize, j: usize, n: usize) -> bool
    requires { (m * record_width ≤ length t.now) × (n * record_width ≤ length t.now) }
    ensures { result ≡ left_first s.now t.now i m j n }
{
    i < m && (n <= j || compare::record_order(s, t, i, j).is_le())
}

// The first m records and the others, each sorted, in one, into the front of u.
fn merge(s: &[u8], t: &[u8], m: usize, u: &mut [u8])
    requires { (m ≤ record_room t.now) × (record_room t.now * record_width ≤ length u.old) }
    ensures { u.new ≡ merging s.now t.now 0 m m (record_room t.now)
        ++ drop (record_room t.now * record_width) u.old }
{
    let n = t.len() / RECORD;
    let mut i = 0;
    let mut j = m;
    for k in 0..n {
        if left_first(s, t, i, m, j, n) {
            copy_record(t, i, u, k);
            i += 1;
        } else {
            copy_record(t, j, u, k);
            j += 1;
        }
    }
}

// Each half is sorted as a range of its own.
fn sort_part(s: &[u8], t: &mut [u8], u: &mut [u8])
    requires { record_room t.old * record_width ≤ length u.old }
    ensures { t.new ≡ sorted_bytes s.now t.old }
{
    let n = t.len() / RECORD;
    if n < 2 {
        return;
    }
    let m = n / 2;
    let at = m * RECORD;
    sort_part(s, &mut t[0..at], &mut u[0..at]);
    sort_part(s, &mut t[at..], &mut u[at..]);
    merge(s, t, m, u);
    work::copy_over(&u[0..n * RECORD], &mut t[0..n * RECORD]);
}

// The records of t in order, if the lent working space holds as many; else it says so, and t is left.
pub fn sort(s: &[u8], t: &mut [u8], work: &mut [u8]) -> bool
    ensures answer { result ≡ leb (record_room t.old * record_width) (length work.old) }
    ensures bytes { t.new ≡ cond (leb (record_room t.old * record_width) (length work.old)) (sorted_bytes s.now t.old) t.old }
{
    if work.len() < t.len() / RECORD * RECORD {
        return false;
    }
    sort_part(s, t, work);
    true
}
