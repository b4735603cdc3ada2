// Bytes that a call is lent: working space, which it gives back as zeros where it used it, and what it is to fill.
ghost use Rattle.std.specs.Prelude.{◌≡◌, ◌+◌, ◌≤◌, min, length};
ghost use Rattle.std.proofs.lemmas.List.Edits.{sets};
ghost use Rattle.decimal.specs.Exact.{largest};
ghost use Rattle.row.specs.Work.{cleared};

// The first n bytes become zeros: `fill` of a part, in one equation.
pub fn clear(w: &mut [u8], n: usize)
    requires { n ≤ length w.old }
    ensures { w.new ≡ cleared n w.old }
{
    w[..n].fill(0);
}

// All of `from` over a part that is as long. Byte by byte and not by `copy_from_slice`, which calls `memmove`: a name that
// whoever links the archive would have to bring.
pub fn copy_over(from: &[u8], to: &mut [u8])
    requires { length from.now ≡ length to.old }
    ensures { to.new ≡ from.now }
{
    for i in 0..from.len() {
        to[i] = from[i];
    }
}

// All of `from` to `to`, from place `at` on.
pub fn copy(from: &[u8], to: &mut [u8], at: usize)
    requires { at + length from.now ≤ length to.old }
    ensures { to.new ≡ sets to.old at from.now }
{
    copy_over(from, &mut to[at..at + from.len()]);
}

// A sum, or the largest number.
pub fn add(a: usize, b: usize) -> usize
    ensures { result ≡ min (a + b) largest }
{
    if a <= usize::MAX - b {
        a + b
    } else {
        usize::MAX
    }
}
