// The text of a span: a part of the lent ledger itself.
ghost use Rattle.std.specs.Prelude.{◌≡◌};
ghost use Rattle.access.specs.Spans.{good_span, span_text};

// Whether a span lies in a text: start over end, or end over the length, is bad.
pub fn is_good(s: &[u8], start: usize, end: usize) -> bool
    ensures { result ≡ good_span s.now start end }
{
    (start <= end) & (end <= s.len())
}

// Empty, at 0, for a bad span.
pub fn text_of(ledger: &[u8], start: usize, end: usize) -> &[u8]
    ensures { result.now ≡ span_text ledger.now start end }
{
    if is_good(ledger, start, end) {
        return &ledger[start..end];
    }
    &ledger[0..0]
}
