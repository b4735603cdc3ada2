// The lines after a transaction's head and its metadata: postings with their metadata, and empty lines (rule 11).
ghost use Rattle.row.specs.steps.Writing.{Did, Readable};
ghost use Rattle.text.specs.Answer.{many};
ghost use Rattle.posting.specs.Postings.{posting, body_step};

use crate::{metadata, posting};
use row::writer::Out;
use text::line;
use text::stop::{Reading, Stop};

// A posting with its metadata.
fn posting_at(s: &[u8], at: usize, base: usize, table: &mut [u8], out: Out) -> Reading<Out>
    requires { Readable base s.now at out }
    ensures { Did base (posting s.now at) out table.old table.new result }
{
    let (e, o) = posting::posting_line(s, at, base, table, out)?;
    metadata::metadata_at(s, e, base, table, o)
}

// A posting with its metadata; else an empty line.
fn body_step(s: &[u8], at: usize, base: usize, table: &mut [u8], out: Out) -> Reading<Out>
    requires { Readable base s.now at out }
    ensures { Did base (body_step s.now at) out table.old table.new result }
{
    match posting_at(s, at, base, table, out) {
        Err(Stop::Miss) => {
            let e = line::empty_line(s, at).ok_or(Stop::Miss)?;
            Ok((e, out))
        }
        read => read,
    }
}

// Postings and empty lines, so many at the most.
pub fn body_at(
    s: &[u8],
    at: usize,
    base: usize,
    table: &mut [u8],
    out: Out,
    most: usize,
) -> Reading<Out>
    requires { Readable base s.now at out }
    ensures { Did base (many (body_step s.now) most at) out table.old table.new result }
{
    let mut i = at;
    let mut o = out;
    for _ in 0..most {
        match body_step(s, i, base, table, o) {
            Ok((e, m)) => {
                o = m;
                i = e;
            }
            Err(Stop::Miss) => return Ok((i, o)),
            Err(hard) => return Err(hard),
        }
    }
    Ok((i, o))
}
