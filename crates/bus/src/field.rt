// A tagged field: a one-byte tag, a two-byte big-endian length, the content.
ghost use Rattle.std.specs.Prelude.{◌≡◌, ◌++◌, ◌+◌, ◌≤◌, length, take, drop};
ghost use Rattle.std.proofs.lemmas.List.Edits.{sets};
ghost use Rattle.bus.specs.Fields.{head_width, head, field, longest, stated, whole};

use row::{table, work};
use text::bytes;

// The tags of an entry's row, a detail's row and a text. Numbers, for a lent packet may hold any.
pub const ENTRY: u8 = 1;

pub const DETAIL: u8 = 2;

pub const TEXT: u8 = 3;

// What stands before the content.
pub const HEAD: usize = 3;

// The longest content.
pub const LONGEST: usize = 65_535;

// A row's field; what stands before a text's content behind it.
pub const ROW_FIELD: usize = HEAD + table::WIDTH;

pub const TEXT_PLACE: usize = ROW_FIELD + HEAD;

// The length that the field at the front states.
pub fn stated_length(r: &[u8]) -> usize
    ensures { (result ≡ stated r.now) × (result ≤ longest) }
{
    let high = usize::from(bytes::peek(r, 1));
    let low = usize::from(bytes::peek(r, 2));
    high * 256 + low
}

// Whether the field at the front is all there.
pub fn is_whole(r: &[u8]) -> bool
    ensures { result ≡ whole r.now }
{
    if r.len() < HEAD {
        return false;
    }
    HEAD + stated_length(r) <= r.len()
}

// So many bytes of `from`, from place `at` on, to the front of `to`.
pub fn copy_part(from: &[u8], at: usize, n: usize, to: &mut [u8])
    requires { (at + n ≤ length from.now) × (n ≤ length to.old) }
    ensures { to.new ≡ take n (drop at from.now) ++ drop n to.old }
{
    work::copy_over(&from[at..at + n], &mut to[0..n]);
}

// A tag and a length to `to`, from place `at` on: the length's highest byte first.
fn put_head(tag: u8, n: usize, to: &mut [u8], at: usize)
    requires { (n ≤ longest) × (at + head_width ≤ length to.old) }
    ensures { to.new ≡ sets to.old at (head tag n) }
{
    to[at] = tag;
    to[at + 1] = (n / 256) as u8;
    to[at + 2] = (n % 256) as u8;
}

// A field to `to`, from place `at` on: the place behind it.
pub fn put_field(tag: u8, content: &[u8], to: &mut [u8], at: usize) -> usize
    requires { (length content.now ≤ longest) × (at + head_width + length content.now ≤ length to.old) }
    ensures place { result ≡ at + head_width + length content.now }
    ensures bytes { to.new ≡ sets to.old at (field tag content.now) }
{
    put_head(tag, content.len(), to, at);
    work::copy(content, to, at + HEAD);
    at + HEAD + content.len()
}
