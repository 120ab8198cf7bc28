//! What a token begins right behind an operand.
ghost use Rattle.std.specs.Prelude.{◌≡◌};
ghost use Rattle.lf_parse.specs.reading.Machine.{follower_of};
ghost use Rattle.lf_parse.specs.views.Values.{token_of};

use crate::class::{Clause, WordClass};
use crate::mark::{Mark, MarkedToken};
use lf_lex::Sign;

/// What a token begins right behind an operand, if it may belong to one. It says what the tests on each sort of operand need, so that each is on a few cases.
#[derive(Clone, Copy, Drop)]
pub enum Follower {
    /// `[`: a range or a subquery.
    Bracket,
    /// `(`: the arguments of a function.
    Paren,
    /// `{`: matchers.
    Brace,
    /// `offset`
    Offset,
    /// `@`: a time.
    At,
    /// `by` and `without`
    Grouping(Clause),
    /// It belongs to no operand.
    Other,
}

/// What a token begins right behind an operand.
pub fn follower_of(token: MarkedToken) -> Follower
    ensures { result ≡ follower_of (token_of token.entry) }
{
    match token.mark {
        Mark::Sign(Sign::OpenBracket) => Follower::Bracket,
        Mark::Sign(Sign::OpenParen) => Follower::Paren,
        Mark::Sign(Sign::OpenBrace) => Follower::Brace,
        Mark::Sign(Sign::At) => Follower::At,
        Mark::Word(WordClass::Offset) => Follower::Offset,
        Mark::Word(WordClass::Grouping(clause)) => Follower::Grouping(clause),
        _ => Follower::Other,
    }
}
