//! Tokens as the grammar sees them.
ghost use Rattle.std.specs.Prelude.{◌≡◌};
ghost use Rattle.lf_parse.specs.Tokens.{word_mark, marked};
ghost use Rattle.lf_parse.specs.views.Values.{mark_of, token_of};

use crate::class::{WordClass, class_of};
use lf_base::Span;
use lf_base::names::has_colon;
use lf_lex::{Sign, Token, TokenKind};

/// What a token is.
#[derive(Clone, Copy, Drop)]
pub enum Mark {
    /// A word without a colon.
    Word(WordClass),
    /// A word with a colon: no keyword, and no label.
    Metric,
    Number,
    Duration,
    Str,
    Sign(Sign),
}

/// A token as the grammar sees it.
#[derive(Clone, Copy, Drop)]
pub struct MarkedToken<'a> {
    /// What it is.
    pub mark: Mark,
    /// Its text, which is empty for a sign.
    pub text: &'a str,
    /// Where it stands.
    pub span: Span,
}

/// The token with its mark.
pub fn marked(token: &Token) -> MarkedToken<'_>
    ensures { token_of result ≡ marked token.now }
{
    let (mark, text) = match &token.kind {
        TokenKind::Word { text } => (word_mark(text.as_str()), text.as_str()),
        TokenKind::Number { text } => (Mark::Number, text.as_str()),
        TokenKind::Duration { text } => (Mark::Duration, text.as_str()),
        TokenKind::Str { text } => (Mark::Str, text.as_str()),
        TokenKind::Sign { sign } => (Mark::Sign(*sign), ""),
    };
    MarkedToken {
        mark,
        text,
        span: token.span,
    }
}

/// What a word is.
fn word_mark(text: &str) -> Mark
    ensures { mark_of result text.now ≡ word_mark text.now }
{
    if has_colon(text) {
        Mark::Metric
    } else {
        Mark::Word(class_of(text))
    }
}
