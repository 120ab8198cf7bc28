//! What stands at the front of a text: a token, something between tokens, or a breach.
ghost use Rattle.std.specs.Prelude.{◌≡◌, ◌+◌, ◌≤◌, ◌<◌, length, drop, take, slice_index, true, IfOk};
ghost use Rattle.std.specs.Str.{IsCharBoundary};
ghost use Rattle.lf_base.specs.declared.refusal.Refusal.TheVariants.{At};
ghost use Rattle.lf_lex.specs.Bytes.{begins_word};
ghost use Rattle.lf_lex.specs.Runs.{begins_run};
ghost use Rattle.lf_lex.specs.Tokens.{in_source};
ghost use Rattle.lf_base.specs.Answers.{Answers};
ghost use Rattle.lf_lex.specs.reading.Steps as steps;

use crate::bytes;
use crate::class::{ByteClass, prefix_len};
use crate::run::{self, duration_order, is_number, run_len};
use crate::sign::sign_at;
use crate::string::{place_of_byte, value_bytes};
use crate::token::TokenKind;
use lf_base::bytes::{after, before};
use lf_base::{Kind, Memory, Refusal, Span, Text, closing};
use std::alloc::Global;

/// The refusal of a part of the text.
fn breach(from: &[u32], kind: Kind, start: usize, end: usize) -> Refusal
    requires { (start ≤ end) × (end < length from.now) }
    ensures { result ≡ At kind (in_source from.now start end) }
{
    Refusal::At {
        kind,
        span: Span {
            start: from[start],
            end: from[end],
        },
    }
}

/// A copy of a part of the text.
fn part(alloc: Global, text: &str, at: usize, len: usize) -> Result<Text, Memory>
    requires start { IsCharBoundary text.now at }
    requires end { IsCharBoundary text.now (at + len) }
    ensures { IfOk result (λ t. t ≡ take len (drop at text.now)) }
{
    Text::of(alloc, &text[at..at + len])
}

/// The bytes of the text from a place on.
fn here(text: &str, at: usize) -> &[u8]
    requires { at ≤ length text.now }
    ensures value { result.now ≡ drop at text.now }
    ensures len { length result.now + at ≡ length text.now }
{
    after(text.as_bytes(), at)
}

/// The word at the front.
#[tactic(auto, unfolding(crate::specs::reading::Steps::word_front))]
fn word(
    alloc: Global,
    text: &str,
    inside: bool,
    at: usize,
) -> Result<(Option<TokenKind>, usize), Refusal>
    requires within { at < length text.now }
    requires begins { begins_word inside (slice_index text.now at) ≡ true }
    ensures told { Answers result (steps.word_front inside (drop at text.now)) }
    ensures within { IfOk result (λ x. (0 < x.1) × (at + x.1 ≤ length text.now)) }
{
    let len = prefix_len(here(text, at), ByteClass::Word { inside });
    let text = part(alloc, text, at, len)?;
    Ok((Some(TokenKind::Word { text }), len))
}

/// The run at the front.
#[tactic(auto, unfolding(crate::specs::reading::Steps::run_front))]
fn run(
    alloc: Global,
    text: &str,
    from: &[u32],
    at: usize,
) -> Result<(Option<TokenKind>, usize), Refusal>
    requires within { at < length text.now }
    requires from { length from.now ≡ length text.now + 1 }
    requires begins { begins_run (drop at text.now) ≡ true }
    ensures told { Answers result (steps.run_front from.now at (drop at text.now)) }
    ensures within { IfOk result (λ x. (0 < x.1) × (at + x.1 ≤ length text.now)) }
{
    let rest = here(text, at);
    let len = run_len(rest);
    let run = before(rest, len);
    if is_number(run) {
        let text = part(alloc, text, at, len)?;
        return Ok((Some(TokenKind::Number { text }), len));
    }
    match duration_order(run) {
        Some(true) => {
            let text = part(alloc, text, at, len)?;
            Ok((Some(TokenKind::Duration { text }), len))
        }
        Some(false) => Err(breach(from, Kind::BadDuration, at, at + len)),
        None => Err(breach(from, Kind::BadNumber, at, at + len)),
    }
}

/// The string whose opening quote is byte `at` of the text, and between whose quotes these bytes stand.
#[tactic(auto, unfolding(crate::specs::reading::Steps::value_front))]
fn value(
    alloc: Global,
    from: &[u32],
    at: usize,
    quote: u8,
    inner: &[u8],
) -> Result<(Option<TokenKind>, usize), Refusal>
    requires { at + 1 + length inner.now < length from.now }
    ensures told { Answers result (steps.value_front from.now at quote inner.now) }
    ensures len { IfOk result (λ x. x.1 ≡ length inner.now + 2) }
{
    let bytes = value_bytes(alloc, quote, inner)?;
    match str::from_utf8(bytes.as_slice()) {
        Ok(value) => {
            let text = Text::of(alloc, value)?;
            Ok((Some(TokenKind::Str { text }), inner.len() + 2))
        }
        Err(error) => {
            let wrong = at + 1 + place_of_byte(quote, inner, error.valid_up_to());
            Err(breach(from, Kind::BadEscape, wrong, wrong + 1))
        }
    }
}

/// The string with escapes at the front.
#[tactic(auto, unfolding(crate::specs::reading::Steps::quoted_front))]
fn quoted(
    alloc: Global,
    text: &str,
    from: &[u32],
    at: usize,
) -> Result<(Option<TokenKind>, usize), Refusal>
    requires within { at < length text.now }
    requires from { length from.now ≡ length text.now + 1 }
    ensures told { Answers result (steps.quoted_front from.now at (drop at text.now)) }
    ensures within { IfOk result (λ x. (0 < x.1) × (at + x.1 ≤ length text.now)) }
{
    let here = here(text, at);
    let quote = here[0];
    let rest = after(here, 1);
    match closing(quote, Some(b'\n'), rest) {
        None => Err(breach(from, Kind::OpenString, at, at + 1)),
        Some(len) => value(alloc, from, at, quote, before(rest, len)),
    }
}

/// The string in back quotes at the front.
#[tactic(auto, unfolding(crate::specs::reading::Steps::raw_front))]
fn raw(
    alloc: Global,
    text: &str,
    from: &[u32],
    at: usize,
) -> Result<(Option<TokenKind>, usize), Refusal>
    requires within { at < length text.now }
    requires from { length from.now ≡ length text.now + 1 }
    requires quote { slice_index text.now at ≡ 96 }
    ensures told { Answers result (steps.raw_front from.now at (drop at text.now)) }
    ensures within { IfOk result (λ x. (0 < x.1) × (at + x.1 ≤ length text.now)) }
{
    let rest = after(here(text, at), 1);
    let len = prefix_len(rest, ByteClass::NoBackQuote);
    if len < rest.len() {
        let text = part(alloc, text, at + 1, len)?;
        Ok((Some(TokenKind::Str { text }), len + 2))
    } else {
        Err(breach(from, Kind::OpenString, at, at + 1))
    }
}

/// The sign at the front.
#[tactic(auto, unfolding(crate::specs::reading::Steps::sign_front))]
fn sign(text: &str, from: &[u32], at: usize) -> Result<(Option<TokenKind>, usize), Refusal>
    requires within { at < length text.now }
    requires from { length from.now ≡ length text.now + 1 }
    ensures told { Answers result (steps.sign_front from.now at (drop at text.now)) }
    ensures within { IfOk result (λ x. (0 < x.1) × (at + x.1 ≤ length text.now)) }
{
    let rest = here(text, at);
    match sign_at(rest) {
        Some((sign, len)) => Ok((Some(TokenKind::Sign { sign }), len)),
        None => {
            let more = prefix_len(after(rest, 1), ByteClass::Continuation);
            Err(breach(from, Kind::BadByte, at, at + 1 + more))
        }
    }
}

/// What stands at byte `at` of the text, and how many bytes it has: a token, or none for blanks and comments. `inside` says that the last bracket before it is
/// open.
#[tactic(auto, unfolding(crate::specs::reading::Steps::next_token, crate::specs::reading::Steps::comment_front))]
pub fn next_token(
    alloc: Global,
    text: &str,
    from: &[u32],
    inside: bool,
    at: usize,
) -> Result<(Option<TokenKind>, usize), Refusal>
    requires within { at < length text.now }
    requires from { length from.now ≡ length text.now + 1 }
    ensures told { Answers result (steps.next_token from.now inside at (drop at text.now)) }
    ensures within { IfOk result (λ x. (0 < x.1) × (at + x.1 ≤ length text.now)) }
{
    let rest = here(text, at);
    let first = rest[0];
    if bytes::is_blank(first) {
        Ok((None, 1))
    } else if first == b'#' {
        Ok((None, prefix_len(rest, ByteClass::NoLineBreak)))
    } else if bytes::begins_word(inside, first) {
        word(alloc, text, inside, at)
    } else if run::begins_run(rest) {
        run(alloc, text, from, at)
    } else if first == b'"' || first == b'\'' {
        quoted(alloc, text, from, at)
    } else if first == b'`' {
        raw(alloc, text, from, at)
    } else {
        sign(text, from, at)
    }
}
