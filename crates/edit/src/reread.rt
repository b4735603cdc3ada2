// Rereading only what was edited. All rows are counted before the first is written.
ghost use Rattle.std.specs.Prelude.{◌≡◌, cond, ◌*◌, ◌+◌, ◌/◌, ◌≤◌, length};
ghost use Rattle.text.specs.Permitted.{size_limit};
ghost use Rattle.row.specs.Row.{width, room};
ghost use Rattle.row.specs.steps.Pouring.{pour};
ghost use Rattle.ledger.specs.Answers.{answer, left};
ghost use Rattle.recovery.specs.Recovering.{recover_from};
ghost use Rattle.edit.specs.Edits.{grows, editing};
ghost use Rattle.edit.specs.steps.Moving.{Within, by_of, plan_of, plan_rows, Ready, Fresh, Counted, allowed};

use crate::moves::By;
use crate::pick::Pick;
use crate::{moves, pick, span};
use recovery::recover;
use row::lines;
use row::table::{FIELD, WIDTH};
use text::permitted::SIZE;
use text::stop;
use text::stop::Refused;

// What the answer is made of: the picked ones of the given rows before the block, the rows of the new bytes, at the
// block's place and with so many line feeds before it, and the picked ones of the rest behind it.
#[derive(Clone, Copy)]
struct Plan {
    before: Pick,
    given: usize,
    start: usize,
    lines: usize,
    behind: Pick,
    rest: usize,
}

// How many rows each part has.
#[derive(Clone, Copy)]
struct Counts {
    before: usize,
    new: usize,
    behind: usize,
}

// Whether the new ledger is too large, where the block is a part of the old one.
fn is_large(old: &[u8], a: usize, e: usize, y: &[u8]) -> bool
    requires { length old.now ≤ size_limit }
    ensures { result ≡ grows old.now a e y.now }
{
    if a <= e {
        if e <= old.len() {
            return SIZE < old.len() - (e - a) + y.len();
        }
    }
    false
}

// The refusals before 9: a ledger is too large, or the block, the row count or the new bytes are not as said.
fn allowed(old: &[u8], rows: &[u8], k: usize, a: usize, e: usize, y: &[u8]) -> Result<(), Refused>
    ensures { result ≡ allowed old.now rows.now k a e y.now }
{
    if SIZE < old.len() {
        return Err(stop::refused_at(stop::TOO_LONG, 0));
    }
    if is_large(old, a, e, y) {
        return Err(stop::refused_at(stop::TOO_LONG, 0));
    }
    if span::is_block(old, a, e) {
        if k <= rows.len() / WIDTH {
            if span::is_new(old, a, e, y) {
                return Ok(());
            }
        }
    }
    Err(stop::refused_at(stop::NOT_VALID, 0))
}

// How far the rows behind the block are moved.
fn by_of(old: &[u8], a: usize, e: usize, y: &[u8]) -> By
    requires { Within old.now a e y.now }
    ensures { result ≡ by_of old.now a e y.now }
{
    let was = lines::feeds_of(&old[a..e]);
    let is = lines::feeds_of(y);
    By {
        places: y.len() + (FIELD - (e - a)),
        lines: is + (FIELD - was),
    }
}

// How many of k given rows may stand behind the block: none where it is last.
fn rest_of(last: bool, k: usize) -> usize
    ensures { result ≡ cond last 0 k }
{
    if last { 0 } else { k }
}

// What the answer is made of.
fn plan_of(old: &[u8], k: usize, a: usize, e: usize, y: &[u8]) -> Plan
    requires { Within old.now a e y.now }
    ensures { result ≡ plan_of old.now k a e y.now }
{
    let by = by_of(old, a, e, y);
    Plan {
        before: Pick {
            behind: false,
            bound: a,
            by: By {
                places: 0,
                lines: 0,
            },
        },
        given: k,
        start: a,
        lines: lines::feeds_of(&old[0..a]),
        behind: Pick {
            behind: true,
            bound: e,
            by,
        },
        rest: rest_of(e == old.len(), k),
    }
}

// How many rows recovering reading has for the new bytes.
fn new_count(y: &[u8]) -> usize
    requires { length y.now ≤ size_limit }
    ensures { (result ≡ length (recover_from (length y.now) 0 0 y.now)) × (result ≤ size_limit) }
{
    let mut none = [0u8; 1];
    match recover::recover(y, &mut none) {
        Ok(n) => n,
        Err(refused) => refused.count,
    }
}

// How many rows the answer has, part by part.
fn count_all(rows: &[u8], p: Plan, y: &[u8]) -> Counts
    requires { Ready p rows.now y.now }
    ensures { Counted p rows.now y.now result }
{
    Counts {
        before: pick::count(rows, p.given, p.before),
        new: new_count(y),
        behind: pick::count(rows, p.rest, p.behind),
    }
}

// The n rows of the new bytes, at a place with so many line feeds before it, to the front of a part of the table.
fn put_new(y: &[u8], n: usize, base: usize, feeds: usize, part: &mut [u8])
    requires { Fresh y.now n base feeds part.old }
    ensures { part.new ≡ pour (recover_from (length y.now) base feeds y.now) part.old }
{
    let _ = recover::recover(y, part);
    moves::move_rows(
        part,
        n,
        By {
            places: base,
            lines: feeds,
        },
    );
}

// They are written, where they all fit.
fn put_all(rows: &[u8], p: Plan, y: &[u8], c: Counts, table: &mut [u8])
    requires { Ready p rows.now y.now × Counted p rows.now y.now c × ((c.before + c.new + c.behind) * width ≤ length table.old) }
    ensures { table.new ≡ pour (plan_rows p rows.now y.now) table.old }
{
    pick::put(rows, p.given, p.before, table);
    let i = c.before * WIDTH;
    put_new(y, c.new, p.start, p.lines, &mut table[i..]);
    let j = i + c.new * WIDTH;
    pick::put(rows, p.rest, p.behind, &mut table[j..]);
}

// The rows of the new ledger, from the old ledger and its first k rows, the block from `start` to `end` and its new
// bytes. A refusal leaves every byte of the table.
pub fn edit(
    old: &[u8],
    rows: &[u8],
    k: usize,
    start: usize,
    end: usize,
    new: &[u8],
    table: &mut [u8],
) -> Result<usize, Refused>
    ensures answer { result ≡ answer (editing old.now rows.now k start end new.now) (room table.old) }
    ensures rows { table.new ≡ left (editing old.now rows.now k start end new.now) table.old }
{
    allowed(old, rows, k, start, end, new)?;
    let p = plan_of(old, k, start, end, new);
    let c = count_all(rows, p, new);
    let n = c.before + c.new + c.behind;
    if table.len() / WIDTH < n {
        return Err(Refused {
            number: stop::TOO_SHORT,
            place: 0,
            count: n,
        });
    }
    put_all(rows, p, new, c, table);
    Ok(n)
}
