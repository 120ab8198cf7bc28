//! The call `tokens`: the tokens of a text, or its refusal, as JSON.
ghost use Rattle.std.specs.Prelude.{◌≡◌, ◌+◌, length, IfOk};
ghost use Rattle.std.specs.List.Sorted.{IsNonDecreasing};

use crate::answer::{no_memory, refused};
use crate::case::TestCase;
use crate::offsets::plain_offsets;
use crate::timing::Stopwatch;
use crate::writer::Writer;
use anyhow::{Result, anyhow};
use lf_base::{Seq, Text};
use lf_lex::{Sign, Token, TokenKind, lex};
use std::alloc::Global;
use std::time::Duration;

/// Writes what `lex` answers on the text of a case.
pub fn answer(alloc: Global, case: &TestCase, out: &mut Writer) -> Result<()> {
    let (text, from) = source_of(alloc, case.text()?)?;
    match lex(alloc, &text, &from) {
        Ok(tokens) => write_tokens(out, tokens.as_slice()),
        Err(refusal) => out.refusal(refusal),
    }
    Ok(())
}

/// The processor time of `lex` on a text.
pub fn time(rt: &HostRuntime, text: &str) -> Result<Duration> {
    let (text, from) = source_of(rt.alloc(), text)?;
    let watch = Stopwatch::start(rt);
    let tokens = lex(rt.alloc(), &text, &from);
    watch.taken(rt, tokens.map_err(refused))
}

/// A text and the offsets of its bytes, as `lex` takes them.
pub fn source_of(alloc: Global, text: &str) -> Result<(Text, Seq<u32>)>
    ensures text { IfOk result (λ source. source.0 ≡ text.now) }
    ensures count { IfOk result (λ source. length source.1 ≡ length source.0 + 1) }
    ensures rises { IfOk result (λ source. IsNonDecreasing source.1) }
{
    let len = u32::try_from(text.len()).map_err(|_| anyhow!("the text is too long"))?;
    let from = plain_offsets(alloc, len).map_err(no_memory)?;
    let text = Text::of(alloc, text).map_err(no_memory)?;
    Ok((text, from))
}

fn write_tokens(out: &mut Writer, tokens: &[Token]) {
    out.open("[");
    for token in tokens {
        write_token(out, token);
    }
    out.close("]");
}

/// A token's kind, text and span.
fn write_token(out: &mut Writer, token: &Token) {
    let (kind, text) = match &token.kind {
        TokenKind::Word { text } => ("word", text.as_str()),
        TokenKind::Number { text } => ("number", text.as_str()),
        TokenKind::Duration { text } => ("duration", text.as_str()),
        TokenKind::Str { text } => ("str", text.as_str()),
        TokenKind::Sign { sign } => ("sign", spelling(*sign)),
    };
    out.open("{");
    out.member("kind", kind);
    out.member("text", text);
    out.span_member(token.span);
    out.close("}");
}

/// A sign as it is written.
fn spelling(sign: Sign) -> &'static str {
    match sign {
        Sign::OpenParen => "(",
        Sign::CloseParen => ")",
        Sign::OpenBrace => "{",
        Sign::CloseBrace => "}",
        Sign::OpenBracket => "[",
        Sign::CloseBracket => "]",
        Sign::Comma => ",",
        Sign::Colon => ":",
        Sign::Plus => "+",
        Sign::Minus => "-",
        Sign::Times => "*",
        Sign::Over => "/",
        Sign::Modulo => "%",
        Sign::Power => "^",
        Sign::Equal => "==",
        Sign::NotEqual => "!=",
        Sign::LessOrEqual => "<=",
        Sign::Less => "<",
        Sign::GreaterOrEqual => ">=",
        Sign::Greater => ">",
        Sign::Is => "=",
        Sign::Matches => "=~",
        Sign::MatchesNot => "!~",
        Sign::At => "@",
    }
}
