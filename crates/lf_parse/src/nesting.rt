//! How deep tokens are nested.
ghost use Rattle.std.specs.Prelude.{◌≡◌, ◌+◌, ◌<◌, ◌^◌, reverse, IfOk, MatchOption, List, ℕ};
ghost use Rattle.lf_parse.specs.Depth as depth;
ghost use Rattle.lf_parse.specs.views.Values.{mark_of, token_of, nesting_of};

use crate::class::WordClass;
use crate::mark::{Mark, MarkedToken, marked};
use crate::operator::op_of_sign;
use lf_base::Memory;
use lf_lex::{Sign, Token};
use std::alloc::Global;

/// How many parentheses may be open at once, and how many operators may have one pair of them as their innermost.
const DEEPEST: u32 = 100;

/// How deep the tokens so far are nested.
#[derive(Drop)]
pub struct Nesting {
    /// How many operators have the innermost open `(` as theirs, or none where none is open.
    here: u32,
    /// The same of those around it, from the outside in: a count for each open `(`.
    around: Vec<u32>,
    /// How many `{` are open.
    braces: usize,
    /// The last token is a `(` or a `,`.
    begun: bool,
}

/// The number of the first token behind which a bound is passed, if one is.
pub fn first_too_deep(alloc: Global, tokens: &[Token]) -> Result<Option<usize>, Memory>
    ensures { IfOk result (λ found. MatchOption found (depth.IsBounded tokens.now) (depth.TooDeepAt tokens.now)) }
{
    // So few tokens pass no bound, and most expressions have no more.
    if tokens.len() <= DEEPEST as usize {
        return Ok(None);
    }
    let mut nesting = Nesting {
        here: 0,
        around: Vec::new(alloc),
        braces: 0,
        begun: false,
    };
    for (index, token) in tokens.iter().enumerate() {
        nesting = nested(nesting, marked(token))?;
        if is_too_deep(&nesting) {
            return Ok(Some(index));
        }
    }
    Ok(None)
}

/// Whether more parentheses are open, or more operators stand inside one pair, than may.
fn is_too_deep(nesting: &Nesting) -> bool
    ensures { result ≡ depth.is_too_deep (nesting_of nesting.now) }
{
    nesting.around.len() > DEEPEST as usize || nesting.here > DEEPEST
}

/// The nesting behind one more token.
fn nested(nesting: Nesting, token: MarkedToken) -> Result<Nesting, Memory>
    requires here { nesting.here + 1 < 2 ^ 32 }
    requires braces { nesting.braces + 1 < 2 ^ 64 }
    ensures { IfOk result (λ n. nesting_of n ≡ depth.nested (nesting_of nesting) (token_of token.entry)) }
{
    match token.mark {
        Mark::Sign(Sign::OpenParen) => open_paren(nesting),
        Mark::Sign(Sign::CloseParen) => Ok(close_paren(nesting)),
        Mark::Sign(Sign::OpenBrace) => Ok(Nesting {
            braces: nesting.braces + 1,
            begun: false,
            ..nesting
        }),
        Mark::Sign(Sign::CloseBrace) => Ok(Nesting {
            braces: nesting.braces.saturating_sub(1),
            begun: false,
            ..nesting
        }),
        Mark::Sign(Sign::Comma) => Ok(Nesting {
            begun: true,
            ..nesting
        }),
        mark => {
            let counts = counts(nesting.begun, mark);
            Ok(counted(counts, nesting))
        }
    }
}

/// The nesting behind a `(`.
fn open_paren(nesting: Nesting) -> Result<Nesting, Memory>
    ensures { IfOk result (λ n. nesting_of n ≡ depth.opened (nesting_of nesting)) }
{
    let Nesting {
        here,
        mut around,
        braces,
        begun: _,
    } = nesting;
    around.push(here)?;
    Ok(Nesting {
        here: 0,
        around,
        braces,
        begun: true,
    })
}

/// The nesting behind a `)`. One without its `(` is passed over.
fn close_paren(nesting: Nesting) -> Nesting
    ensures { nesting_of result ≡ depth.closed (reverse nesting.around.items) (nesting_of nesting) }
{
    let Nesting {
        here,
        mut around,
        braces,
        begun: _,
    } = nesting;
    match around.pop() {
        Some(outer) => Nesting {
            here: outer,
            around,
            braces,
            begun: false,
        },
        None => Nesting {
            here,
            around,
            braces,
            begun: false,
        },
    }
}

/// The nesting behind a token that is no bracket, which counts as an operator or doesn't. Inside braces none counts.
fn counted(counts: bool, nesting: Nesting) -> Nesting
    requires here { nesting.here + 1 < 2 ^ 32 }
    ensures { nesting_of result ≡ depth.counted counts (nesting_of nesting) }
{
    let more = counts && nesting.braces == 0;
    let here = if more { nesting.here + 1 } else { nesting.here };
    Nesting {
        here,
        begun: false,
        ..nesting
    }
}

/// Whether a token counts as an operator outside braces. `begun` says that it stands right behind a `(` or a `,`, where a word is a label.
fn counts(begun: bool, mark: Mark) -> bool
    ensures { (text : List ℕ) → result ≡ depth.counts begun (mark_of mark text) }
{
    match mark {
        Mark::Sign(Sign::OpenBracket) => true,
        Mark::Sign(sign) => op_of_sign(sign).is_some(),
        Mark::Word(WordClass::Operator(_)) => !begun,
        _ => false,
    }
}
