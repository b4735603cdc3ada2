// Currencies (rule 7).
ghost use Rattle.std.specs.Prelude.{◌≡◌};
ghost use Rattle.text.specs.Currencies.{currency_at};

use crate::run::Class;
use crate::{bytes, run, window};

pub fn currency(s: &[u8], at: usize) -> Option<usize>
    ensures { result ≡ currency_at s.now at }
{
    if at < s.len() {
        if bytes::is_capital(s[at]) {
            // Capitals alone are the usual case: their run is the quicker one, and its last byte may end a currency.
            let c = run::run(s, at + 1, Class::Capital);
            if bytes::in_currency(bytes::peek(s, c)) {
                let e = window::currency_run(s, c + 1);
                if bytes::starts_part(bytes::peek(s, e - 1)) {
                    return Some(e);
                }
                return None;
            }
            return Some(c);
        }
    }
    None
}
