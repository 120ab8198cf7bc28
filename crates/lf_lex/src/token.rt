//! What an expression is made of.

use lf_base::{Span, Text};

/// A sign. The table of their spellings is in `sign.rt`.
#[derive(Clone, Copy, PartialEq, Eq, Debug)]
pub enum Sign {
    /// `(`
    OpenParen,
    /// `)`
    CloseParen,
    /// `{`
    OpenBrace,
    /// `}`
    CloseBrace,
    /// `[`
    OpenBracket,
    /// `]`
    CloseBracket,
    /// `,`
    Comma,
    /// `:` between brackets; elsewhere a colon is a part of a word
    Colon,
    /// `+`
    Plus,
    /// `-`
    Minus,
    /// `*`
    Times,
    /// `/`
    Over,
    /// `%`
    Modulo,
    /// `^`
    Power,
    /// `==`
    Equal,
    /// `!=`
    NotEqual,
    /// `<=`
    LessOrEqual,
    /// `<`
    Less,
    /// `>=`
    GreaterOrEqual,
    /// `>`
    Greater,
    /// `=`
    Is,
    /// `=~`
    Matches,
    /// `!~`
    MatchesNot,
    /// `@`
    At,
}

/// What a token is. Keywords are words here.
#[derive(Debug, Drop)]
pub enum TokenKind {
    /// A metric name, a label name or a keyword: letters, digits, underscores and, outside brackets, colons.
    Word { text: Text },
    /// A number as it is written.
    Number { text: Text },
    /// A duration as it is written, as `1h30m`.
    Duration { text: Text },
    /// A string: its value, with the escapes replaced by what they stand for.
    Str { text: Text },
    /// A sign.
    Sign { sign: Sign },
}

/// A token, and the part of the source that it was read from.
#[derive(Debug, Drop)]
pub struct Token {
    /// What it is.
    pub kind: TokenKind,
    /// Where it stands.
    pub span: Span,
}
