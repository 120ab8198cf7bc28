//! Spans of several tokens.
ghost use Rattle.std.specs.Prelude.{◌≡◌};
ghost use Rattle.lf_parse.specs.Grammar as grammar;

use lf_base::Span;

/// From where one begins to where the other ends.
pub fn to(first: Span, last: Span) -> Span
    ensures { result ≡ grammar.to first last }
{
    Span {
        start: first.start,
        end: last.end,
    }
}

/// From where one begins up to an offset.
pub fn up_to(first: Span, end: u32) -> Span
    ensures { result ≡ grammar.up_to first end }
{
    Span {
        start: first.start,
        end,
    }
}

/// The empty span at the end of one.
pub fn behind(span: Span) -> Span
    ensures { result ≡ grammar.behind span }
{
    Span {
        start: span.end,
        end: span.end,
    }
}
