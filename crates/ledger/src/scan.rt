// Reading entry by entry, of a text that stands anywhere in a ledger.
ghost use Rattle.std.specs.Prelude.{◌≡◌, ◌+◌, ◌≤◌, length};
ghost use Rattle.text.specs.Permitted.{size_limit};
ghost use Rattle.ledger.specs.steps.Objections.{entry_reach, ledger_reach, entry_objection, Near};
ghost use Rattle.ledger.specs.steps.Scan.{scanned_by, part_at_by, first_of, noted_by, ended_scan, scan_answer, ScanPoured};

use crate::strict;
use crate::strict::Objection;
use row::table;
use text::stop::Refused;
use text::{permitted, stop};

// Plain reading, or strict, which refuses lost lines and flags too.
#[derive(Clone, Copy)]
pub enum Profile {
    Plain,
    Strict,
}

// The first objection: the one that came first, if there is one, or else o, of an entry at a place.
fn first_of(first: Option<Objection>, at: usize, o: Option<Objection>) -> Option<Objection>
    requires { (at ≤ size_limit) × Near entry_reach o }
    ensures { result ≡ first_of first at o }
{
    if let Some(first) = first {
        return Some(first);
    }
    let o = o?;
    Some(Objection {
        number: o.number,
        place: at + o.place,
    })
}

// The same for the entry of a kind and so many bytes at the front of s, which stands at a place; plain reading has
// none.
fn noted(
    held: Option<Objection>,
    s: &[u8],
    at: usize,
    len: usize,
    kind: usize,
    profile: Profile,
) -> Option<Objection>
    requires { (at ≤ size_limit) × (length s.now ≤ size_limit) × (len ≤ length s.now) }
    ensures { result ≡ noted_by profile held at (entry_objection kind len s.now) }
{
    match profile {
        Profile::Plain => held,
        Profile::Strict => first_of(held, at, strict::against(s, len, kind)),
    }
}

// A text that was read to its end: so many rows, unless an objection is held.
fn ended(base: usize, n: usize, held: Option<Objection>) -> Result<usize, Refused>
    requires { (base ≤ size_limit) × Near ledger_reach held }
    ensures { result ≡ ended_scan base n held }
{
    match held {
        None => Ok(n),
        Some(o) => Err(stop::refused_at(o.number, base + o.place)),
    }
}

// Reads s, which starts at place `base` of a ledger; the rows go to the table's front, where they fit, with no lines
// yet. What stands behind them in the table may change too.
pub fn entries(s: &[u8], base: usize, table: &mut [u8], profile: Profile) -> Result<usize, Refused>
    requires { base + length s.now ≤ size_limit }
    ensures answer { result ≡ scan_answer (scanned_by profile base s.now) }
    ensures rows { ScanPoured (scanned_by profile base s.now) table.old table.new }
{
    let mut at = 0;
    let mut n = 0;
    let mut held = None;
    // A turn takes a whole entry: no step that a range could count.
    while at < s.len() {
        let k = table::place(n, table.len());
        let place = base + at;
        match entry::entry::entry_at(&s[at..], place, &mut table[k..]) {
            Err(refused) => {
                return Err(stop::refused_at(refused.number, place + refused.place));
            }
            Ok(entry) => {
                held = noted(held, &s[at..], at, entry.size, entry.kind, profile);
                at += entry.size;
                n += entry.rows;
            }
        }
    }
    ended(base, n, held)
}

// Reads s, which starts at place `base` of a ledger: its bytes first, then its entries.
pub fn part(s: &[u8], base: usize, table: &mut [u8], profile: Profile) -> Result<usize, Refused>
    requires { base + length s.now ≤ size_limit }
    ensures answer { result ≡ scan_answer (part_at_by profile base s.now) }
    ensures rows { ScanPoured (part_at_by profile base s.now) table.old table.new }
{
    let c = permitted::clean_prefix(s);
    if c < s.len() {
        return Err(stop::refused_at(stop::BAD_BYTE, base + c));
    }
    entries(s, base, table, profile)
}
