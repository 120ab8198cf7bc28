//! What the tokens of an action say.
ghost use Rattle.std.specs.Prelude.{◌≡◌, ◌≤◌, ◌<◌, ◌+◌, ◌^◌, IfSome};
ghost use Rattle.std.specs.List.{list_any};
ghost use Rattle.lf_templates.specs.Actions as actions;

use crate::token::{ActionToken, Lexeme, Variable, Word};

fn says_something(token: ActionToken) -> bool
    ensures { result ≡ actions.says_something token }
{
    match token {
        ActionToken::Blank { .. } => false,
        ActionToken::Trim => false,
        _ => true,
    }
}

fn is_wrong(token: ActionToken) -> bool
    ensures { result ≡ actions.is_wrong token }
{
    match token {
        ActionToken::Wrong => true,
        ActionToken::Comment => true,
        _ => false,
    }
}

fn is_trim_mark(token: ActionToken) -> bool
    ensures { result ≡ actions.is_trim_mark token }
{
    match token {
        ActionToken::Trim => true,
        _ => false,
    }
}

fn is_blank(token: ActionToken) -> bool
    ensures { result ≡ actions.is_blank token }
{
    match token {
        ActionToken::Blank { .. } => true,
        _ => false,
    }
}

fn is_comment_token(token: ActionToken) -> bool
    ensures { result ≡ actions.is_comment_token token }
{
    match token {
        ActionToken::Comment => true,
        _ => false,
    }
}

/// Whether a token is `$labels`.
pub fn is_labels(token: ActionToken) -> bool
    ensures { result ≡ actions.is_labels token }
{
    match token {
        ActionToken::Variable { variable } => match variable {
            Variable::Labels => true,
            _ => false,
        },
        _ => false,
    }
}

fn is_setting(token: ActionToken) -> bool
    ensures { result ≡ actions.is_setting token }
{
    match token {
        ActionToken::Setting => true,
        _ => false,
    }
}

/// Whether the tokens are a comment, behind which the action ends right away or with a trim mark.
fn is_comment_here(tokens: &[Lexeme]) -> bool
    ensures { result ≡ actions.is_comment_here (actions.tokens_of tokens.now) }
{
    match tokens {
        [] => false,
        [only] => is_comment_token(only.token),
        [_first, _second] => false,
        [first, second, third] => {
            is_comment_token(first.token) && is_blank(second.token) && is_trim_mark(third.token)
        }
        [_first, _second, _third, _fourth, ..] => false,
    }
}

/// Whether the action is a comment.
fn is_comment(tokens: &[Lexeme]) -> bool
    ensures { result ≡ actions.is_comment (actions.tokens_of tokens.now) }
{
    match tokens {
        [] => false,
        [only] => is_comment_token(only.token),
        [first, second, rest @ ..] => {
            if is_trim_mark(first.token) && is_blank(second.token) {
                is_comment_here(rest)
            } else {
                is_comment_here(tokens)
            }
        }
    }
}

/// The first token that is no blank and no trim mark.
pub fn head(tokens: &[Lexeme]) -> Option<ActionToken>
    ensures { result ≡ actions.head_of (actions.tokens_of tokens.now) }
{
    for lexeme in tokens {
        if says_something(lexeme.token) {
            return Some(lexeme.token);
        }
    }
    None
}

/// The word at the head of an action.
pub fn word_at(head: Option<ActionToken>) -> Word
    ensures { result ≡ actions.word_at head }
{
    match head {
        Some(token) => word_in(token),
        None => Word::Other,
    }
}

fn word_in(token: ActionToken) -> Word
    ensures { result ≡ actions.word_in token }
{
    match token {
        ActionToken::Word { word } => word,
        _ => Word::Other,
    }
}

/// Whether a byte begins no token, or there is a comment.
fn has_wrong(tokens: &[Lexeme]) -> bool
    ensures { result ≡ list_any actions.is_wrong (actions.tokens_of tokens.now) }
{
    for lexeme in tokens {
        if is_wrong(lexeme.token) {
            return true;
        }
    }
    false
}

/// Whether each parenthesis has its partner.
fn is_balanced(tokens: &[Lexeme]) -> bool
    ensures { result ≡ actions.is_balanced 0 (actions.tokens_of tokens.now) }
{
    let mut depth: usize = 0;
    for lexeme in tokens {
        match behind(depth, lexeme.token) {
            Some(next) => depth = next,
            None => return false,
        }
    }
    depth == 0
}

/// How many parentheses are open behind a token, or none where one closes that isn't open.
fn behind(depth: usize, token: ActionToken) -> Option<usize>
    requires { depth < 2 ^ 63 }
    ensures value { result ≡ actions.depth_behind depth token }
    ensures grows { IfSome result (λ next. next ≤ depth + 1) }
{
    match token {
        ActionToken::Open => Some(depth + 1),
        ActionToken::Close => { if depth == 0 { None } else { Some(depth - 1) } }
        _ => Some(depth),
    }
}

/// Whether an action with this head is well formed: a comment, or tokens that say something, of which none is wrong and whose parentheses are balanced.
pub fn is_sound(tokens: &[Lexeme], head: Option<ActionToken>) -> bool
    requires { head ≡ actions.head_of (actions.tokens_of tokens.now) }
    ensures { result ≡ actions.is_sound (actions.tokens_of tokens.now) }
{
    is_comment(tokens) || (head.is_some() && !has_wrong(tokens) && is_balanced(tokens))
}

/// Whether `:=`, `=` or `,` stands behind a `$labels` that no field follows.
pub fn sets_labels(tokens: &[Lexeme]) -> bool
    ensures { result ≡ actions.sets_labels (actions.tokens_of tokens.now) }
{
    let mut behind_labels = false;
    for lexeme in tokens {
        let token = lexeme.token;
        if !is_blank(token) {
            if behind_labels && is_setting(token) {
                return true;
            }
            behind_labels = is_labels(token);
        }
    }
    false
}
