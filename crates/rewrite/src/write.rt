// The call: plain reading into the working space, the need, the bytes.
ghost use Rattle.std.specs.Prelude.{◌≡◌, ◌*◌, ◌≤◌, length};
ghost use Rattle.row.specs.Row.{width, rows_in};
ghost use Rattle.layout.specs.Written.{written};
ghost use Rattle.rewrite.specs.Rewriting.{Rewrites};
ghost use Rattle.rewrite.specs.steps.Pieces.{AllFlagged};
ghost use Rattle.rewrite.specs.steps.Pouring.{Pours};

use crate::rows;
use ledger::read;
use row::table::WIDTH;
use row::work;
use text::stop::{Refused, TOO_SHORT};

// The rows are in the working space: the first pass counts, the second writes.
fn poured(ledger: &[u8], output: &mut [u8], work: &[u8], n: usize) -> Result<usize, Refused>
    requires { (n * width ≤ length work.now) × AllFlagged (rows_in n work.now) }
    ensures { Pours (written ledger.now (rows_in n work.now)) output.old result output.new }
{
    let mut none = [0u8; 1];
    let need = rows::rows(ledger, work, n, &mut none);
    if output.len() < need {
        return Err(Refused {
            number: TOO_SHORT,
            place: 0,
            count: need,
        });
    }
    rows::rows(ledger, work, n, output);
    Ok(need)
}

// Writes a ledger afresh. A refusal leaves every byte of the output; what was used of the working space is cleared.
// Refusal 9 has place 0 for the output, 1 for the working space.
pub fn write(ledger: &[u8], output: &mut [u8], work: &mut [u8]) -> Result<usize, Refused>
    ensures { Rewrites ledger.now output.old work.old result output.new work.new }
{
    let n = match read::read(ledger, work) {
        Ok(n) => n,
        // Only a table too short has a count, of rows.
        Err(refused) if 0 < refused.count => {
            return Err(Refused {
                number: TOO_SHORT,
                place: 1,
                count: refused.count * WIDTH,
            });
        }
        Err(refused) => return Err(refused),
    };
    let poured = poured(ledger, output, work, n);
    work::clear(work, n * WIDTH);
    poured
}
