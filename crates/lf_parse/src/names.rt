//! Lists of labels in parentheses.
ghost use Rattle.std.specs.Prelude.{◌≡◌, ◌++◌, ◌∷◌, [], IfOk};
ghost use Rattle.lf_parse.specs.Grammar.{name};
ghost use Rattle.lf_parse.specs.reading.Machine as machine;
ghost use Rattle.lf_parse.specs.views.Values.{token_of, names_of, step_of};

use crate::mark::{Mark, MarkedToken};
use crate::step::ParserStep;
use lf_ast::Name;
use lf_base::{Memory, Seq, Span, Text};
use lf_lex::Sign;
use std::alloc::Global;

/// Where a list of labels in parentheses is.
#[derive(Drop)]
pub enum Names {
    /// Its `(` comes.
    Opening,
    /// A label or the `)` comes.
    Next(Seq<Name>),
    /// A `,` or the `)` comes.
    After(Seq<Name>),
}

/// The label that a word is.
pub fn name_of(alloc: Global, token: MarkedToken) -> Result<Name, Memory>
    ensures { IfOk result (λ n. n ≡ name token.entry.text.now token.entry.span) }
{
    let text = Text::of(alloc, token.text)?;
    Ok(Name {
        text,
        span: token.span,
    })
}

/// A list with one more label.
fn with_name(names: Seq<Name>, last: Name) -> Result<Seq<Name>, Memory>
    ensures { IfOk result (λ all. all ≡ names ++ last ∷ []) }
{
    let mut names = names;
    names.push(last)?;
    Ok(names)
}

/// Takes the next token of a list. At its end this gives the labels and the span of the `)`.
pub fn names_step(
    alloc: Global,
    names: Names,
    token: MarkedToken,
) -> Result<ParserStep<Names, (Seq<Name>, Span)>, Memory>
    ensures { IfOk result (λ taken. step_of names_of (λ v. v) taken ≡ machine.names_step (names_of names) (token_of token.entry)) }
{
    match (names, token.mark) {
        (Names::Opening, Mark::Sign(Sign::OpenParen)) => {
            // Most have one label or two.
            let list = Seq::with_capacity(alloc, 2)?;
            Ok(ParserStep::More(Names::Next(list)))
        }
        (Names::Next(list), Mark::Word(_)) => {
            let label = name_of(alloc, token)?;
            Ok(ParserStep::More(Names::After(with_name(list, label)?)))
        }
        (Names::Next(list), Mark::Sign(Sign::CloseParen)) => Ok(ParserStep::Done((
            list, token.span,
        ))),
        (Names::After(list), Mark::Sign(Sign::Comma)) => Ok(ParserStep::More(Names::Next(list))),
        (Names::After(list), Mark::Sign(Sign::CloseParen)) => Ok(ParserStep::Done((
            list, token.span,
        ))),
        _ => Ok(ParserStep::Reject),
    }
}
