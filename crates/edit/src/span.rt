// The block and the new bytes, as said.
ghost use Rattle.std.specs.Prelude.{◌≡◌, ◌||◌, ◌-◌, eqb, get_or};
ghost use Rattle.text.specs.Boundaries.{cuts};
ghost use Rattle.recovery.specs.Demand3.{starts_tail, ends_line};
ghost use Rattle.edit.specs.Edits.{is_block, is_new};

use recovery::block;
use text::bytes;

// Whether a block may start at a place: 0, or a boundary.
fn may_start(s: &[u8], a: usize) -> bool
    ensures { result ≡ (eqb a 0 || cuts (get_or s.now (a - 1) 0) (get_or s.now a 0)) }
{
    if a == 0 {
        return true;
    }
    let b = bytes::peek(s, a - 1);
    if b == b'\n' {
        return block::is_start(bytes::peek(s, a));
    }
    false
}

// Whether the bytes from a to e are a block.
pub fn is_block(s: &[u8], a: usize, e: usize) -> bool
    ensures { result ≡ is_block s.now a e }
{
    if a <= s.len() {
        if e == a + block::block_length(&s[a..]) {
            return may_start(s, a);
        }
    }
    false
}

// Whether new bytes may start a block at a place.
fn starts_well(a: usize, y: &[u8]) -> bool
    ensures { result ≡ (eqb a 0 || starts_tail y.now) }
{
    if a == 0 {
        return true;
    }
    if 0 < y.len() {
        return block::is_start(y[0]);
    }
    false
}

// Whether new bytes may end a block that is last or not.
fn ends_well(last: bool, y: &[u8]) -> bool
    ensures { result ≡ (last || ends_line y.now) }
{
    if last {
        return true;
    }
    if 0 < y.len() {
        let b = y[y.len() - 1];
        return b == b'\n';
    }
    true
}

// Whether the new bytes are as said, for a block from a to e of s.
pub fn is_new(s: &[u8], a: usize, e: usize, y: &[u8]) -> bool
    ensures { result ≡ is_new s.now a e y.now }
{
    if y.len() == 0 {
        return true;
    }
    if starts_well(a, y) {
        return ends_well(e == s.len(), y);
    }
    false
}
