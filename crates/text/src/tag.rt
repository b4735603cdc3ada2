// Tags and links (rule 14): a mark and a run, possibly empty.
ghost use Rattle.std.specs.Prelude.{◌≡◌};
ghost use Rattle.text.specs.Tags.{tag_at, link_at};

use crate::window;

pub fn tag(s: &[u8], at: usize) -> Option<usize>
    ensures { result ≡ tag_at s.now at }
{
    if at < s.len() {
        if s[at] == b'#' {
            return Some(window::tag_run(s, at + 1));
        }
    }
    None
}

pub fn link(s: &[u8], at: usize) -> Option<usize>
    ensures { result ≡ link_at s.now at }
{
    if at < s.len() {
        if s[at] == b'^' {
            return Some(window::link_run(s, at + 1));
        }
    }
    None
}
