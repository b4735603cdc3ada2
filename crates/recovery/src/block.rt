// A block of a ledger: where it ends, and its rows.
ghost use Rattle.std.specs.Prelude.{◌≡◌, ◌+◌, ◌≤◌, length};
ghost use Rattle.text.specs.Permitted.{size_limit};
ghost use Rattle.text.specs.Boundaries.{is_start};
ghost use Rattle.recovery.specs.Recovering.{block_length};
ghost use Rattle.recovery.specs.steps.Front.{unlined_block, Front};

use amount::kind;
use ledger::scan;
use ledger::scan::Profile;
use row::table;
use row::table::Row;
use text::run::Class;
use text::{bytes, run};

// Whether a line that starts with the byte starts at a boundary.
pub fn is_start(b: u8) -> bool
    ensures { result ≡ is_start b }
{
    bytes::is_digit(b) | bytes::is_small(b)
}

// The bytes of s up to the next boundary behind its first byte, or all of them: only line starts are looked at.
pub fn block_length(s: &[u8]) -> usize
    ensures { result ≡ block_length s.now }
{
    let mut i = 0;
    // A turn takes a whole line: no step that a range could count.
    while i < s.len() {
        let feed = run::run(s, i, Class::Line);
        if s.len() <= feed {
            return feed;
        }
        i = feed + 1;
        if is_start(bytes::peek(s, i)) {
            return i;
        }
    }
    i
}

// Reads the block s, which starts at place `base`; its rows, or the row of its refusal, go to the table's front, where
// they all fit, with no lines yet. What stands behind them in the table may change too.
pub fn block(s: &[u8], base: usize, table: &mut [u8], profile: Profile) -> usize
    requires { base + length s.now ≤ size_limit }
    ensures answer { result ≡ length (unlined_block profile base s.now) }
    ensures rows { Front (unlined_block profile base s.now) table.old table.new }
{
    match scan::part(s, base, table, profile) {
        Ok(n) => n,
        Err(refused) => {
            table::put_front(
                table,
                Row {
                    kind: kind::REFUSAL,
                    start: base,
                    end: base + s.len(),
                    line: 0,
                    p: refused.number,
                    q: refused.place,
                    bits: 0,
                },
            );
            1
        }
    }
}
