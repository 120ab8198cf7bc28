//! From a text to its tokens.
ghost use Rattle.std.specs.Prelude.{◌≡◌, ◌+◌, ◌++◌, ◌≤◌, ℕ, length, slice_index, false, Ok, Err, IfOk, OnOk};
ghost use Rattle.std.specs.List.Sorted.{IsNonDecreasing, IsNonDecreasingBy};
ghost use Rattle.lf_base.specs.Answers.{Found, Only, Refused, Breach, RefusedIn};
ghost use Rattle.lf_lex.specs.Tokens.{Tokens, Breaks, LieIn};
ghost use Rattle.lf_lex.specs.reading.Reads as reading;
ghost use Rattle.lf_lex.specs.declared.token.Token.{Token};

use crate::step::next_token;
use crate::token::{Sign, Token, TokenKind};
use lf_base::{Memory, Refusal, Seq, Span, Text};
use std::alloc::Global;

/// How many tokens there is room for at first. Most expressions have no more.
const FIRST_ROOM: usize = 16;

/// Whether a bracket is open behind what was found.
fn behind(found: &Option<TokenKind>, inside: bool) -> bool
    ensures { result ≡ reading.behind found.now inside }
{
    match found {
        Some(
            TokenKind::Sign {
                sign: Sign::OpenBracket,
            },
        ) => true,
        Some(
            TokenKind::Sign {
                sign: Sign::CloseBracket,
            },
        ) => false,
        _ => inside,
    }
}

/// Appends a token, where one was found.
fn push(tokens: &mut Seq<Token>, found: Option<TokenKind>, span: Span) -> Result<(), Memory>
    ensures { OnOk result (tokens.new ≡ tokens.old ++ reading.tokens_at found span) }
{
    match found {
        None => Ok(()),
        Some(kind) => tokens.push(Token { kind, span }),
    }
}

/// The tokens of a text. Entry k of `from` is the offset in the source of byte k of the text, and its last entry that of the text's end; spans are offsets of the
/// source.
///
/// The first breach is refused: `BadByte` at a character that begins no token, `OpenString` at a quote that isn't closed, `BadEscape` at the backslash of an
/// escape that strings don't have or that gives no UTF-8, `BadNumber` and `BadDuration` at a row of digits and letters that is neither.
pub fn lex(alloc: Global, text: &Text, from: &Seq<u32>) -> Result<Seq<Token>, Refusal>
    requires from { length from.now ≡ length text.now + 1 }
    requires rises { IsNonDecreasing from.now }
    // What is answered are the text's tokens.
    ensures found { Found (λ tokens. tokens) (Tokens from.now text.now) result }
    // They are answered, unless memory runs out; so no text has two lists of tokens.
    ensures only { Only (λ tokens. tokens) (Tokens from.now text.now) result }
    // What is refused is the breach of a text.
    ensures refused { Refused (Breaks from.now text.now) result }
    // It is refused, unless memory runs out; so no text has two breaches, nor one and tokens.
    ensures breach { Breach (λ tokens. tokens) (Breaks from.now text.now) result }
    // Where the text ends in a source of n bytes, the spans of the tokens lie there.
    ensures inside { (n : ℕ) → slice_index from.now (length text.now) ≤ n → IfOk result (LieIn n) }
    // So does that of a refusal.
    ensures refused_inside { (n : ℕ) → slice_index from.now (length text.now) ≤ n → RefusedIn n result }
    // Tokens stand in the order of the source.
    ensures ordered { IfOk result (λ tokens. IsNonDecreasingBy (λ token. token.span.start) tokens) }
{
    read(alloc, text.as_str(), from.as_slice())
}

/// The same over a plain text and list, told in the words of the way of reading.
fn read(alloc: Global, text: &str, from: &[u32]) -> Result<Seq<Token>, Refusal>
    requires from { length from.now ≡ length text.now + 1 }
    requires rises { IsNonDecreasing from.now }
    ensures found { IfOk result (λ tokens. reading.Reads from.now false 0 text.now (Ok tokens)) }
    ensures refused { Refused (λ fault. reading.Reads from.now false 0 text.now (Err fault)) result }
    ensures ordered { IfOk result (λ tokens. IsNonDecreasingBy (λ token. token.span.start) tokens) }
{
    let mut tokens = Seq::with_capacity(alloc, text.len().min(FIRST_ROOM))?;
    let mut inside = false;
    let mut at = 0;
    while at < text.len() {
        let (found, len) = next_token(alloc, text, from, inside, at)?;
        inside = behind(&found, inside);
        let span = Span {
            start: from[at],
            end: from[at + len],
        };
        push(&mut tokens, found, span)?;
        at += len;
    }
    Ok(tokens)
}
