// Little-endian fields.
ghost use Rattle.std.specs.Prelude.{◌≡◌, ◌+◌, ◌%◌, ◌≤◌, length, take, drop};
ghost use Rattle.std.proofs.lemmas.List.Edits.{sets};
ghost use Rattle.row.specs.Field.{le, un};

use crate::table::FIELD;

// The lowest byte of x.
fn low(x: usize) -> u8
    ensures { result ≡ x % 256 }
{
    (x % 256) as u8
}

// The four low bytes of x at `at`, lowest first: written out, so that the compiler makes one store of them.
pub fn put_four(t: &mut [u8], at: usize, x: usize)
    requires { at + 4 ≤ length t.old }
    ensures { t.new ≡ sets t.old at (le 4 x) }
{
    t[at] = low(x);
    t[at + 1] = low(x / 256);
    t[at + 2] = low(x / 65536);
    t[at + 3] = low(x / 16777216);
}

// The number in the `width` bytes at `at`.
pub fn get(t: &[u8], at: usize, width: usize) -> usize
    requires { (at + width ≤ length t.now) × (width ≤ 8) }
    ensures { result ≡ un (take width (drop at t.now)) }
{
    let mut x = 0;
    for i in (0..width).rev() {
        x = x * 256 + usize::from(t[at + i]);
    }
    x
}

// The number in the four bytes at `at`: written out, so that the compiler makes one read of them.
pub fn get_four(t: &[u8], at: usize) -> usize
    requires { at + 4 ≤ length t.now }
    ensures { result ≡ un (take 4 (drop at t.now)) }
{
    usize::from(t[at])
        + 256
            * (usize::from(t[at + 1])
                + 256 * (usize::from(t[at + 2]) + 256 * usize::from(t[at + 3])))
}

// The number in the eight bytes at `at`.
pub fn get_eight(t: &[u8], at: usize) -> usize
    requires { at + 8 ≤ length t.now }
    ensures { result ≡ un (take 8 (drop at t.now)) }
{
    get_four(t, at) + FIELD * get_four(t, at + 4)
}
