// The strict profile's judgement of an entry that was read (M-110).
ghost use Rattle.std.specs.Prelude.{◌≡◌, ◌&&◌, ◌≤◌, length};
ghost use Rattle.text.specs.Bytes.{is_blank};
ghost use Rattle.text.specs.Lines.{line_end_at};
ghost use Rattle.ledger.specs.Strict.{missed, lost_line};
ghost use Rattle.ledger.specs.steps.Objections.{flag_passes, lost_of, flag_of, entry_objection};

use amount::kind;
use text::run::Class;
use text::{bytes, line, run, stop, word};

// The bytes of a date.
const DATE: usize = 10;

// A refusal's number and its place from the entry's start.
#[derive(Clone, Copy)]
pub struct Objection {
    pub number: usize,
    pub place: usize,
}

// Whether s, which starts with b, starts with blanks and no comment or line end behind them.
fn stray(s: &[u8], b: u8) -> bool
    ensures { result ≡ (is_blank b && missed (line_end_at s.now 0)) }
{
    if bytes::is_blank(b) {
        return line::line_end(s, 0).is_none();
    }
    false
}

// Whether the line s is lost: it looks like an entry, and reads as none.
fn lost_line(s: &[u8]) -> bool
    ensures { result ≡ lost_line s.now }
{
    let b = bytes::peek(s, 0);
    if bytes::is_digit(b) {
        return true;
    }
    if stray(s, b) {
        return true;
    }
    word::word(s, 0, b"option").is_some()
}

fn lost(s: &[u8]) -> Option<Objection>
    ensures { result ≡ lost_of s.now }
{
    if lost_line(s) {
        return Some(Objection {
            number: stop::LOST_LINE,
            place: 0,
        });
    }
    None
}

// `*`, `!`, or what `txn` starts with.
fn flag_passes(b: u8) -> bool
    ensures { result ≡ flag_passes b }
{
    (b == b'*') | (b == b'!') | bytes::is_small(b)
}

// The flag of a transaction at the front of s: behind its date and a gap.
fn flagged(s: &[u8]) -> Option<Objection>
    ensures { result ≡ flag_of s.now }
{
    let g = run::run(s, DATE, Class::Blank);
    if flag_passes(bytes::peek(s, g)) {
        return None;
    }
    Some(Objection {
        number: stop::OTHER_FLAG,
        place: g,
    })
}

// What the strict profile has against the entry of a kind and so many bytes at the front of s.
pub fn against(s: &[u8], len: usize, kind: usize) -> Option<Objection>
    requires { len ≤ length s.now }
    ensures { result ≡ entry_objection kind len s.now }
{
    if kind == kind::BLANK {
        return lost(&s[0..len]);
    }
    if kind == kind::TRANSACTION {
        return flagged(s);
    }
    None
}
