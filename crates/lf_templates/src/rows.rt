//! The references in an action.
ghost use Rattle.std.specs.Prelude.{◌≡◌, ◌+◌, ◌<◌, ◌^◌};
ghost use Rattle.lf_templates.specs.Actions as actions;
ghost use Rattle.lf_templates.specs.reading.Templates.{total};

use crate::saying::is_labels;
use crate::token::{ActionToken, Lexeme, ReferenceSpan, Variable};

/// Whether a field that stands right behind a token goes on what the token begins or ends.
pub fn goes_on(token: ActionToken) -> bool
    ensures { result ≡ actions.goes_on token }
{
    match token {
        ActionToken::Variable { .. } => true,
        ActionToken::Field { .. } => true,
        ActionToken::Close => true,
        _ => false,
    }
}

fn is_field(token: ActionToken) -> bool
    ensures { result ≡ actions.is_field token }
{
    match token {
        ActionToken::Field { .. } => true,
        _ => false,
    }
}

fn is_labels_field(token: ActionToken) -> bool
    ensures { result ≡ actions.is_labels_field token }
{
    match token {
        ActionToken::Field { labels } => labels,
        _ => false,
    }
}

fn is_root(token: ActionToken) -> bool
    ensures { result ≡ actions.is_root token }
{
    match token {
        ActionToken::Variable { variable } => match variable {
            Variable::Root => true,
            _ => false,
        },
        _ => false,
    }
}

/// The reference of two tokens, `$labels.NAME` or `.Labels.NAME`, the first of which stands at an offset.
fn row_of_two(inside: bool, at: usize, first: Lexeme, second: Lexeme) -> Option<ReferenceSpan>
    requires { at + first.len + second.len < 2 ^ 63 }
    ensures { result ≡ actions.row_of_two inside at first second }
{
    let begins = is_labels(first.token) || (is_labels_field(first.token) && !inside);
    if begins && is_field(second.token) {
        Some(ReferenceSpan {
            start: at,
            name: at + first.len + 1,
            end: at + first.len + second.len,
        })
    } else {
        None
    }
}

/// The reference that begins with the first of these tokens, which stands at an offset. `inside` says that fields go on here.
pub fn row_here(inside: bool, at: usize, tokens: &[Lexeme]) -> Option<ReferenceSpan>
    requires { at + total tokens.now < 2 ^ 63 }
    ensures { result ≡ actions.row_here inside at tokens.now }
{
    match tokens {
        [] => None,
        [_only] => None,
        [first, second] => row_of_two(inside, at, *first, *second),
        [first, second, third, ..] => {
            if is_root(first.token) && is_labels_field(second.token) && is_field(third.token) {
                let before = first.len + second.len;
                Some(ReferenceSpan {
                    start: at,
                    name: at + before + 1,
                    end: at + before + third.len,
                })
            } else {
                row_of_two(inside, at, *first, *second)
            }
        }
    }
}
