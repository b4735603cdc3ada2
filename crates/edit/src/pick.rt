// Rows of a table that are picked by their start: counted, and put into another table.
ghost use Rattle.std.specs.Prelude.{◌≡◌, cond, ◌+◌, ◌<◌, ◌^◌, length};
ghost use Rattle.row.specs.Row.{row_in};
ghost use Rattle.row.specs.steps.Pouring.{pour, pour_at};
ghost use Rattle.edit.specs.steps.Moving.{Small, shift_by, picks, picked, picked_rows, Given};

use crate::moves;
use crate::moves::By;
use row::table;
use row::table::{Row, WIDTH};

// Rows that start before the bound, or those that start there and later, which are moved.
#[derive(Clone, Copy)]
pub struct Pick {
    pub behind: bool,
    pub bound: usize,
    pub by: By,
}

fn is_picked(p: Pick, start: usize) -> bool
    ensures { result ≡ picks p start }
{
    if p.behind {
        return p.bound <= start;
    }
    start < p.bound
}

// 1 for a row that is picked.
fn one_picked(p: Pick, start: usize) -> usize
    ensures { result ≡ cond (picks p start) 1 0 }
{
    if is_picked(p, start) { 1 } else { 0 }
}

// How many of the first k rows of a table are picked.
pub fn count(t: &[u8], k: usize, p: Pick) -> usize
    requires { Given p k t.now }
    ensures { result ≡ length (picked_rows p k t.now) }
{
    let mut n = 0;
    for row in 0..k {
        n += one_picked(p, table::start_in(&t[row * WIDTH..]));
    }
    n
}

// The row as it goes into the answer.
fn moved_if(behind: bool, r: Row, b: By) -> Row
    requires { Small b }
    ensures { result ≡ cond behind (shift_by b r) r }
{
    if behind {
        return moves::shift_row(r, b);
    }
    r
}

// The row at the front of a table as row n of another, if it is picked: how many rows are there then.
fn put_one(t: &[u8], p: Pick, table: &mut [u8], n: usize) -> usize
    requires { Given p 1 t.now × (n < 2 ^ 63) }
    ensures { (result ≡ n + length (picked p (row_in t.now))) × (table.new ≡ pour_at n (picked p (row_in t.now)) table.old) }
{
    if is_picked(p, table::start_in(t)) {
        let r = table::row_in(t);
        table::put_row(table, n, moved_if(p.behind, r, p.by));
        return n + 1;
    }
    n
}

// The picked ones of the first k rows of a table, to the front of another.
pub fn put(t: &[u8], k: usize, p: Pick, table: &mut [u8])
    requires { Given p k t.now }
    ensures { table.new ≡ pour (picked_rows p k t.now) table.old }
{
    let mut n = 0;
    for row in 0..k {
        n = put_one(&t[row * WIDTH..], p, table, n);
    }
}
