//! What a scalar is.
ghost use Rattle.std.specs.Prelude.{◌≡◌, ◌≤◌, length, get_or};
ghost use Rattle.lf_scalar.specs.Offsets.{AreOffsets};

use lf_base::{Seq, Span, Text};

/// How a scalar is written.
#[derive(Clone, Copy, PartialEq, Eq, Debug)]
pub enum Style {
    /// As it stands, over lines that are folded.
    Plain,
    /// Between single quotes.
    Single,
    /// Between double quotes, with escapes.
    Double,
    /// A block of lines, each with its line feed.
    Literal,
    /// A block of lines that are folded.
    Folded,
}

/// The text of a scalar and where it comes from.
///
/// `from` has one entry for each byte of the text and one for its end: the source offset, in bytes from 0, of what gave it. `span` is the scalar's place in the source,
/// quotes and header included. The entries never fall, and lie in the span: `span.start` is at most the first of them and `span.end` at least the last.
#[derive(Debug, Drop)]
pub struct Scalar {
    pub text: Text,
    pub from: Seq<u32>,
    pub span: Span,
    pub ghost offsets: { AreOffsets text from span },
}

impl Scalar {
    /// Where a part of the text comes from: from the source of its first byte to the source of what follows it. `part` is in bytes of the text, from 0, and lies in it.
    pub fn source(&self, part: Span) -> Span
        requires order { part.start ≤ part.end }
        requires within { part.end ≤ length self.now.text }
        ensures start { result.start ≡ get_or self.now.from part.start 0 }
        ensures end { result.end ≡ get_or self.now.from part.end 0 }
        ensures order { result.start ≤ result.end }
        ensures inside { (self.now.span.start ≤ result.start) × (result.end ≤ self.now.span.end) }
    {
        let from = self.from.as_slice();
        Span {
            start: from[part.start as usize],
            end: from[part.end as usize],
        }
    }
}
