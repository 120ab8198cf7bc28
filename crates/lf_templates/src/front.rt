//! The token at the front of a text between braces.
ghost use Rattle.std.specs.Prelude.{◌≡◌, ◌<◌};
ghost use Rattle.lf_base.specs.Rows.{starts};
ghost use Rattle.lf_templates.specs.Tokens as tokens;
ghost use Rattle.lf_templates.specs.reading.Templates as reading;

use crate::bytes::{ActionByteClass, beginning, row_len, starts, starts_with};
use crate::names::{field_of, name_len, variable_of, word_of};
use crate::strings::comment_len;
use crate::token::{ActionToken, Beginning, Lexeme, TokenContext};
use lf_base::bytes::{after, before};
use lf_base::closing;

/// Whether the action ends here.
pub fn closes(rest: &[u8]) -> bool
    ensures { result ≡ tokens.closes rest.now }
{
    starts_with(b'}', b'}', rest)
}

/// Whether a comment can stand at a place.
fn takes_comment(place: TokenContext) -> bool
    ensures { result ≡ tokens.takes_comment place }
{
    match place {
        TokenContext::Start => true,
        TokenContext::Ready => true,
        _ => false,
    }
}

/// Whether a `-` at a place and before a text is that of a trim mark.
#[tactic(auto, unfolding(crate::specs::Tokens::is_inline))]
fn is_trim(place: TokenContext, rest: &[u8]) -> bool
    ensures { result ≡ tokens.is_trim place rest.now }
{
    match place {
        TokenContext::Start => starts_inline(rest),
        TokenContext::Ready => closes(rest),
        TokenContext::Blanked => closes(rest),
        TokenContext::Trimmed => false,
        TokenContext::Inside => false,
    }
}

/// Whether a space or a tab stands here.
#[tactic(auto, unfolding(crate::specs::Tokens::is_inline))]
fn starts_inline(rest: &[u8]) -> bool
    ensures { result ≡ starts tokens.is_inline rest.now }
{
    match rest {
        [] => false,
        [first, ..] => *first == b' ' || *first == b'\t',
    }
}

/// The place behind a token.
pub fn behind(place: TokenContext, token: ActionToken) -> TokenContext
    ensures { result ≡ tokens.behind place token }
{
    match token {
        ActionToken::Blank { inline } => {
            if inline {
                behind_blank(place)
            } else {
                TokenContext::Inside
            }
        }
        ActionToken::Trim => TokenContext::Trimmed,
        _ => TokenContext::Inside,
    }
}

/// The place behind a space or a tab.
fn behind_blank(place: TokenContext) -> TokenContext
    ensures { result ≡ tokens.behind_blank place }
{
    match place {
        TokenContext::Trimmed => TokenContext::Ready,
        _ => TokenContext::Blanked,
    }
}

/// The string behind a quote.
#[tactic(auto, unfolding(crate::specs::reading::Templates::string_front))]
fn string(quote: u8, rest: &[u8]) -> Option<Lexeme>
    ensures { result ≡ reading.string_front quote rest.now }
{
    let len = closing(quote, None, rest)? + 2;
    Some(Lexeme {
        token: ActionToken::Plain,
        len,
    })
}

/// The string behind a back quote.
#[tactic(auto, unfolding(crate::specs::reading::Templates::raw_front))]
fn raw_string(rest: &[u8]) -> Option<Lexeme>
    ensures { result ≡ reading.raw_front rest.now }
{
    let len = row_len(rest, ActionByteClass::NoBackQuote);
    if len < rest.len() {
        Some(Lexeme {
            token: ActionToken::Plain,
            len: len + 2,
        })
    } else {
        None
    }
}

#[tactic(auto, unfolding(crate::specs::reading::Templates::word_front))]
fn word(rest: &[u8]) -> Lexeme
    ensures { result ≡ reading.word_front rest.now }
{
    let len = name_len(rest);
    let word = word_of(before(rest, len));
    Lexeme {
        token: ActionToken::Word { word },
        len,
    }
}

/// The variable behind a `$`.
#[tactic(auto, unfolding(crate::specs::reading::Templates::variable_front))]
fn variable(rest: &[u8]) -> Lexeme
    ensures { result ≡ reading.variable_front rest.now }
{
    let len = name_len(rest);
    let variable = variable_of(before(rest, len));
    Lexeme {
        token: ActionToken::Variable { variable },
        len: len + 1,
    }
}

/// The field behind a dot.
#[tactic(auto, unfolding(crate::specs::reading::Templates::field_front))]
fn field(rest: &[u8]) -> Lexeme
    ensures { result ≡ reading.field_front rest.now }
{
    let len = name_len(rest);
    Lexeme {
        token: field_of(before(rest, len)),
        len: len + 1,
    }
}

/// The number behind its first digit.
#[tactic(auto, unfolding(crate::specs::reading::Templates::number_front))]
fn number(rest: &[u8]) -> Lexeme
    ensures { result ≡ reading.number_front rest.now }
{
    Lexeme {
        token: ActionToken::Plain,
        len: row_len(rest, ActionByteClass::Number) + 1,
    }
}

/// What a colon is.
#[tactic(auto, unfolding(crate::specs::reading::Templates::colon_front))]
fn colon(rest: &[u8]) -> Lexeme
    ensures { result ≡ reading.colon_front rest.now }
{
    if starts(b'=', rest) {
        Lexeme {
            token: ActionToken::Setting,
            len: 2,
        }
    } else {
        Lexeme {
            token: ActionToken::Wrong,
            len: 1,
        }
    }
}

/// What a slash begins.
#[tactic(auto, unfolding(crate::specs::reading::Templates::slash_front))]
fn slash(place: TokenContext, rest: &[u8]) -> Option<Lexeme>
    ensures { result ≡ reading.slash_front place rest.now }
{
    if takes_comment(place) && starts(b'*', rest) {
        let len = comment_len(after(rest, 1))? + 4;
        Some(Lexeme {
            token: ActionToken::Comment,
            len,
        })
    } else {
        Some(Lexeme {
            token: ActionToken::Wrong,
            len: 1,
        })
    }
}

/// What a minus is.
#[tactic(auto, unfolding(crate::specs::reading::Templates::minus_front))]
fn minus(place: TokenContext, rest: &[u8]) -> Lexeme
    ensures { result ≡ reading.minus_front place rest.now }
{
    let token = if is_trim(place, rest) {
        ActionToken::Trim
    } else {
        ActionToken::Plain
    };
    Lexeme { token, len: 1 }
}

/// The token at the front, which stands at a place of an action. There is none at the end, and where a string or a comment doesn't close.
pub fn front(place: TokenContext, rest: &[u8]) -> Option<Lexeme>
    ensures { result ≡ reading.front place rest.now }
{
    match rest {
        [] => None,
        [first, more @ ..] => match beginning(*first) {
            Beginning::Alone { token } => Some(Lexeme { token, len: 1 }),
            Beginning::Quote => string(*first, more),
            Beginning::BackQuote => raw_string(more),
            Beginning::Letter => Some(word(rest)),
            Beginning::Dollar => Some(variable(more)),
            Beginning::Dot => Some(field(more)),
            Beginning::Digit => Some(number(more)),
            Beginning::Colon => Some(colon(more)),
            Beginning::Slash => slash(place, more),
            Beginning::Minus => Some(minus(place, more)),
        },
    }
}
