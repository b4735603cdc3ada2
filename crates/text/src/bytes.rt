// Byte classes. The bytes that are met most often are tested first.
ghost use Rattle.std.specs.Prelude.{◌≡◌, get_or};
ghost use Rattle.text.specs.Bytes.{is_blank, is_space, is_digit, is_small, is_capital, in_line, in_comment, is_ordinary, is_escaped, starts_part, in_currency};

// The byte at a place, or 0 past the end, as the definitions have it (`get_or`).
pub fn peek(s: &[u8], at: usize) -> u8
    ensures { result ≡ get_or s.now at 0 }
{
    if at < s.len() { s[at] } else { 0 }
}

pub fn is_blank(b: u8) -> bool
    ensures { result ≡ is_blank b }
{
    if b == b' ' {
        return true;
    }
    b == b'\t'
}

pub fn is_space(b: u8) -> bool
    ensures { result ≡ is_space b }
{
    b == b' '
}

pub fn is_digit(b: u8) -> bool
    ensures { result ≡ is_digit b }
{
    (b'0' <= b) & (b <= b'9')
}

pub fn is_small(b: u8) -> bool
    ensures { result ≡ is_small b }
{
    (b'a' <= b) & (b <= b'z')
}

pub fn is_capital(b: u8) -> bool
    ensures { result ≡ is_capital b }
{
    (b'A' <= b) & (b <= b'Z')
}

// Rule 1.
pub fn in_line(b: u8) -> bool
    ensures { result ≡ in_line b }
{
    b != b'\n'
}

// Rule 2.
pub fn in_comment(b: u8) -> bool
    ensures { result ≡ in_comment b }
{
    (b != b'\n') & (b != b'\r')
}

// Rule 5.
pub fn is_ordinary(b: u8) -> bool
    ensures { result ≡ is_ordinary b }
{
    (b != b'"') & (b != b'\\')
}

// Rule 5: what may stand after a string's backslash.
pub fn is_escaped(b: u8) -> bool
    ensures { result ≡ is_escaped b }
{
    (b == b'"') | (b == b'\\')
}

// Rules 6 and 7: what a part of an account starts with, and a currency ends with.
pub fn starts_part(b: u8) -> bool
    ensures { result ≡ starts_part b }
{
    if is_capital(b) {
        return true;
    }
    is_digit(b)
}

// Rule 7.
pub fn in_currency(b: u8) -> bool
    ensures { result ≡ in_currency b }
{
    if is_capital(b) {
        return true;
    }
    is_digit(b) | (b == b'-') | (b == b'_') | (b == b'.') | (b == b'\'')
}
