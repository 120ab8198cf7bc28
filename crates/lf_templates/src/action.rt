//! The tokens of an action.
ghost use Rattle.std.specs.Prelude.{◌≡◌, ◌+◌, ◌≤◌, length, drop, option_map, IfOk, IfSome};
ghost use Rattle.lf_templates.specs.reading.Templates.{lexed, total, Named};
ghost use Rattle.lf_templates.specs.declared.token.TokenContext.TheVariants.{Start};

use crate::front::{behind, closes, front};
use crate::token::{Lexeme, TokenContext};
use lf_base::Memory;
use lf_base::bytes::after;
use std::alloc::Global;

/// What stands between the braces of an action.
#[derive(Debug, Drop)]
pub struct Braced {
    /// Its tokens, blanks among them.
    pub tokens: Vec<Lexeme>,
    /// The offset of what stands behind the closing braces.
    pub end: usize,
}

/// The tokens of an action behind its opening braces, which end at an offset; none where the action doesn't end.
pub fn read_action(alloc: Global, bytes: &[u8], start: usize) -> Result<Option<Braced>, Memory>
    requires { start ≤ length bytes.now }
    ensures tokens { IfOk result (λ found. option_map (λ b. b.tokens.items) found ≡ lexed Start 0 (drop start bytes.now)) }
    ensures end { IfOk result (λ found. IfSome found (λ b. b.end ≡ start + total b.tokens.items + 2)) }
    ensures within { IfOk result (λ found. IfSome found (λ b. b.end ≤ length bytes.now)) }
    ensures named { IfOk result (λ found. IfSome found (λ b. Named bytes.now start b.tokens.items)) }
{
    let mut tokens = Vec::new(alloc);
    let mut place = TokenContext::Start;
    let mut at = start;
    while at < bytes.len() {
        let rest = after(bytes, at);
        if closes(rest) {
            return Ok(Some(Braced {
                tokens,
                end: at + 2,
            }));
        }
        match front(place, rest) {
            None => return Ok(None),
            Some(lexeme) => {
                tokens.push(lexeme)?;
                place = behind(place, lexeme.token);
                at += lexeme.len;
            }
        }
    }
    Ok(None)
}
