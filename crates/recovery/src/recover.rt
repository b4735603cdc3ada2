// Recovering reading. The first pass, into no table, gives the need; the second writes.
ghost use Rattle.std.specs.Prelude.{◌≡◌, ◌/◌, ◌≤◌, length};
ghost use Rattle.text.specs.Permitted.{size_limit};
ghost use Rattle.ledger.specs.Answers.{answer, left};
ghost use Rattle.recovery.specs.Recovering.{recovered_by, recovered, recovered_strictly};
ghost use Rattle.recovery.specs.steps.Front.{unlined, Front};
ghost use Rattle.row.specs.Row.{room};

use crate::block;
use ledger::scan::Profile;
use row::table::WIDTH;
use row::{lines, table};
use text::permitted::SIZE;
use text::stop;
use text::stop::Refused;

// Block by block: so many rows, which go to the table's front, where they all fit, with no lines yet. What stands
// behind them may change too.
fn blocks(s: &[u8], table: &mut [u8], profile: Profile) -> usize
    requires { length s.now ≤ size_limit }
    ensures answer { result ≡ length (unlined profile s.now) }
    ensures rows { Front (unlined profile s.now) table.old table.new }
{
    let mut at = 0;
    let mut n = 0;
    // A turn takes a whole block: no step that a range could count.
    while at < s.len() {
        let end = at + block::block_length(&s[at..]);
        let k = table::place(n, table.len());
        n += block::block(&s[at..end], at, &mut table[k..], profile);
        at = end;
    }
    n
}

// Recovering reading of a ledger, in a profile, into a row table. A refusal leaves every byte of the table.
fn recover_by(ledger: &[u8], table: &mut [u8], profile: Profile) -> Result<usize, Refused>
    ensures answer { result ≡ answer (recovered_by profile ledger.now) (room table.old) }
    ensures rows { table.new ≡ left (recovered_by profile ledger.now) table.old }
{
    if SIZE < ledger.len() {
        return Err(stop::refused_at(stop::TOO_LONG, 0));
    }
    let mut none = [0u8; 1];
    let n = blocks(ledger, &mut none, profile);
    if table.len() / WIDTH < n {
        return Err(Refused {
            number: stop::TOO_SHORT,
            place: 0,
            count: n,
        });
    }
    let end = n * WIDTH;
    blocks(ledger, &mut table[0..end], profile);
    lines::set_lines(ledger, table, n);
    Ok(n)
}

// Recovering reading, each block read plainly.
pub fn recover(ledger: &[u8], table: &mut [u8]) -> Result<usize, Refused>
    ensures answer { result ≡ answer (recovered ledger.now) (room table.old) }
    ensures rows { table.new ≡ left (recovered ledger.now) table.old }
{
    recover_by(ledger, table, Profile::Plain)
}

// Recovering reading, each block read strictly (M-110).
pub fn recover_strict(ledger: &[u8], table: &mut [u8]) -> Result<usize, Refused>
    ensures answer { result ≡ answer (recovered_strictly ledger.now) (room table.old) }
    ensures rows { table.new ≡ left (recovered_strictly ledger.now) table.old }
{
    recover_by(ledger, table, Profile::Strict)
}
