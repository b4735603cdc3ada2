// Plain and strict reading. The first pass, into no table, gives the verdict and the need; the second writes.
ghost use Rattle.std.specs.Prelude.{◌≡◌, ◌/◌, length};
ghost use Rattle.ledger.specs.Plain.{plain};
ghost use Rattle.ledger.specs.Strict.{strict, reading_by};
ghost use Rattle.ledger.specs.Answers.{answer, left};
ghost use Rattle.ledger.specs.steps.Scan.{scan_answer};
ghost use Rattle.row.specs.Row.{room};

use crate::scan;
use crate::scan::Profile;
use row::lines;
use row::table::WIDTH;
use text::permitted::SIZE;
use text::stop;
use text::stop::Refused;

// The first pass: so many rows, or a refusal.
pub fn verdict(ledger: &[u8], profile: Profile) -> Result<usize, Refused>
    ensures { result ≡ scan_answer (reading_by profile ledger.now) }
{
    if SIZE < ledger.len() {
        return Err(stop::refused_at(stop::TOO_LONG, 0));
    }
    let mut none = [0u8; 1];
    scan::part(ledger, 0, &mut none, profile)
}

// The second pass, which writes: n rows, if there is room for them. It is lent the part of the table that they fill, so
// that no other byte changes.
fn written(ledger: &[u8], table: &mut [u8], n: usize, profile: Profile) -> Result<usize, Refused>
    requires { Ok n ≡ scan_answer (reading_by profile ledger.now) }
    ensures answer { result ≡ answer (reading_by profile ledger.now) (room table.old) }
    ensures rows { table.new ≡ left (reading_by profile ledger.now) table.old }
{
    if table.len() / WIDTH < n {
        return Err(Refused {
            number: stop::TOO_SHORT,
            place: 0,
            count: n,
        });
    }
    let end = n * WIDTH;
    let _ = scan::entries(ledger, 0, &mut table[0..end], Profile::Plain);
    lines::set_lines(ledger, table, n);
    Ok(n)
}

// A ledger's reading in a profile, into a row table. A refusal leaves every byte of the table.
fn read_by(ledger: &[u8], table: &mut [u8], profile: Profile) -> Result<usize, Refused>
    ensures answer { result ≡ answer (reading_by profile ledger.now) (room table.old) }
    ensures rows { table.new ≡ left (reading_by profile ledger.now) table.old }
{
    let n = verdict(ledger, profile)?;
    written(ledger, table, n, profile)
}

// Plain reading.
pub fn read(ledger: &[u8], table: &mut [u8]) -> Result<usize, Refused>
    ensures answer { result ≡ answer (plain ledger.now) (room table.old) }
    ensures rows { table.new ≡ left (plain ledger.now) table.old }
{
    read_by(ledger, table, Profile::Plain)
}

// Strict reading (M-110): plain reading, and lost lines (16) and flags but `*` and `!` (17) are refused.
pub fn read_strict(ledger: &[u8], table: &mut [u8]) -> Result<usize, Refused>
    ensures answer { result ≡ answer (strict ledger.now) (room table.old) }
    ensures rows { table.new ≡ left (strict ledger.now) table.old }
{
    read_by(ledger, table, Profile::Strict)
}
