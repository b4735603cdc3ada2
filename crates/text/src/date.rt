// Dates (rule 3).
ghost use Rattle.std.specs.Prelude.{◌≡◌, ◌+◌, ◌-◌, ◌≤◌, ◌<◌, ◌&&◌, drop, get_or, length};
ghost use Rattle.text.specs.Bytes.{is_digit};
ghost use Rattle.text.specs.Dates.{like_shape, date_shape, two, date_in, date_at};

use crate::bytes;

// A digit's value.
fn digit(b: u8) -> u32
    ensures value { result ≡ b - 48 }
    ensures upper_bound { result ≤ 207 }
{
    u32::from(b).saturating_sub(48)
}

// Two digits as a number.
fn two_digits(s: &[u8], at: usize) -> u32
    requires { at + 1 < length s.now }
    ensures value { result ≡ two s.now at }
    ensures upper_bound { result ≤ 2277 }
{
    digit(s[at]) * 10 + digit(s[at + 1])
}

// Whether two digits stand at a place.
fn two_stand(s: &[u8], at: usize) -> bool
    requires { at + 1 < length s.now }
    ensures { result ≡ (is_digit (get_or s.now at 0) && is_digit (get_or s.now (at + 1) 0)) }
{
    bytes::is_digit(s[at]) & bytes::is_digit(s[at + 1])
}

// Whether four digits, `-`, two, `-`, two stand at a place.
fn shape(s: &[u8], at: usize) -> bool
    requires { at + 10 ≤ length s.now }
    ensures { result ≡ like_shape date_shape (drop at s.now) }
{
    two_stand(s, at)
        & two_stand(s, at + 2)
        & (s[at + 4] == b'-')
        & two_stand(s, at + 5)
        & (s[at + 7] == b'-')
        & two_stand(s, at + 8)
}

// The date whose shape stands at a place: month 01 to 12, day 01 to 31.
fn date_in(s: &[u8], at: usize) -> Option<(usize, u32)>
    requires { at + 10 ≤ length s.now }
    ensures { result ≡ date_in s.now at }
{
    let m = two_digits(s, at + 5);
    let d = two_digits(s, at + 8);
    if (1 <= m) & (m <= 12) & (1 <= d) & (d <= 31) {
        let y = two_digits(s, at);
        let z = two_digits(s, at + 2);
        return Some((at + 10, y * 1000000 + z * 10000 + m * 100 + d));
    }
    None
}

pub fn date(s: &[u8], at: usize) -> Option<(usize, u32)>
    ensures { result ≡ date_at s.now at }
{
    if s.len() < 10 {
        return None;
    }
    if s.len() - 10 < at {
        return None;
    }
    if shape(s, at) {
        return date_in(s, at);
    }
    None
}
