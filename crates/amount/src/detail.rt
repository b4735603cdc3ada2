// A row in the making.
ghost use Rattle.std.specs.Prelude.{◌≡◌};
ghost use Rattle.amount.specs.Details.{named as namedRow};

use decimal::{Decimal, Value};

// Its places count from the entry's start.
#[derive(Clone, Copy, Debug, PartialEq, Eq)]
pub struct Detail {
    pub kind: usize,
    pub start: usize,
    pub end: usize,
    pub p: usize,
    pub q: usize,
    pub value: Value,
}

// A row that holds no value: it spans a text, and may name a second thing, another span, a date or a flag.
pub fn named(kind: usize, start: usize, end: usize, p: usize, q: usize) -> Detail
    ensures { result ≡ namedRow kind start end p q }
{
    Detail {
        kind,
        start,
        end,
        p,
        q,
        value: Ok(Decimal {
            minus: false,
            size: 0,
        }),
    }
}
