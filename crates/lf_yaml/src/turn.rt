//! What one turn over a flow collection finds.

use crate::place::FlowCursor;
use crate::row::ContentLine;

/// What one turn over a flow collection finds: a part or none, and what stands behind it. The lines behind a closing bracket's own begin at `next`.
pub enum Turn<'a, T> {
    /// The bracket that closes, where a part may begin.
    Ends {
        closing: ContentLine<'a>,
        next: usize,
    },
    /// A part, and behind it the bracket that closes.
    Last {
        found: T,
        closing: ContentLine<'a>,
        next: usize,
    },
    /// A part and a comma, and the place behind them.
    More {
        found: T,
        place: FlowCursor<'a>,
    },
}
