//! The outcome of a step of the parser.

/// What a part inside which no expression stands does with a token.
#[derive(Drop)]
pub enum ParserStep<S, V> {
    /// The part goes on.
    More(S),
    /// The token ends it.
    Done(V),
    /// It ended before the token.
    DoneBefore(V),
    /// No expression goes on with the token.
    Reject,
}
