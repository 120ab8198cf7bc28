//! The brackets of ranges and subqueries.
ghost use Rattle.std.specs.Prelude.{◌≡◌, List, IfOk};
ghost use Rattle.lf_parse.specs.declared.mode.ParserFrame.{ParserFrame};
ghost use Rattle.lf_ast.specs.Tree as trees_of;
ghost use Rattle.lf_ast.specs.Tree.{tree};
ghost use Rattle.lf_parse.specs.Grammar as grammar;
ghost use Rattle.lf_parse.specs.reading.Machine as machine;
ghost use Rattle.lf_parse.specs.views.Values.{token_of, frames_of, mode_of, next, operand_of};

use crate::behind::of_word;
use crate::mark::{Mark, MarkedToken};
use crate::mode::{Operand, ParserMode, Subject, operand_tree};
use crate::span::to;
use lf_ast::{Expr, Sight, span_of};
use lf_base::{Memory, Span, Text};
use lf_lex::Sign;
use std::alloc::Global;

/// Takes the token behind the `[` that follows an operand: the duration of a range. Any other token gives no place.
pub fn after_bracket(
    alloc: Global,
    operand: Operand,
    token: MarkedToken,
) -> Result<Option<ParserMode>, Memory>
    ensures { IfOk result (λ p. (ps : List ParserFrame) → next ps p ≡ machine.after_bracket (frames_of ps) (operand_of operand) (token_of token.entry)) }
{
    match token.mark {
        Mark::Duration => {
            let range = Text::of(alloc, token.text)?;
            Ok(Some(ParserMode::AfterRange(operand, range, token.span)))
        }
        _ => Ok(None),
    }
}

/// What stands behind a selector or a subquery with a range and perhaps a step.
fn ranged(range: Text, step: Option<Text>, range_span: Span) -> Sight
    ensures { result ≡ grammar.stepped range range_span step }
{
    Sight {
        range: Some(range),
        step,
        offset: None,
        at: None,
        range_span,
    }
}

/// Behind the `]` of a range.
fn range_of(
    alloc: Global,
    operand: Operand,
    range: Text,
    range_span: Span,
    close: Span,
) -> Result<Option<ParserMode>, Memory>
    ensures { IfOk result (λ p. (ps : List ParserFrame) → next ps p ≡ machine.range_of (frames_of ps) (operand_of operand) range range_span close) }
{
    match operand {
        Operand::Bare(name, span) => Ok(Some(ParserMode::ExpectOperator(Operand::Sighted(
            of_word(alloc, name),
            Box::new(alloc, ranged(range, None, range_span))?,
            to(span, close),
            close.end,
        )))),
        Operand::Selected(name, matchers, span) => Ok(Some(ParserMode::ExpectOperator(
            Operand::Sighted(
                Subject::Selector(name, matchers),
                Box::new(alloc, ranged(range, None, range_span))?,
                to(span, close),
                close.end,
            ),
        ))),
        _ => Ok(None),
    }
}

/// Takes the token behind the duration of a range, which has a span: a `]`, which ends the range of a selector, or a `:`, which begins the step of a subquery. Any other token gives no place.
pub fn after_range(
    alloc: Global,
    operand: Operand,
    range: Text,
    range_span: Span,
    token: MarkedToken,
) -> Result<Option<ParserMode>, Memory>
    ensures { IfOk result (λ p. (ps : List ParserFrame) → next ps p ≡ machine.after_range (frames_of ps) (operand_of operand) range range_span (token_of token.entry)) }
{
    match token.mark {
        Mark::Sign(Sign::CloseBracket) => range_of(alloc, operand, range, range_span, token.span),
        Mark::Sign(Sign::Colon) => {
            let (of, _) = operand_tree(alloc, operand);
            Ok(Some(ParserMode::AfterColon(Box::new(alloc, of)?, range, range_span)))
        }
        _ => Ok(None),
    }
}

/// Behind the `]` of a subquery.
fn subquery(
    alloc: Global,
    of: Box<Expr>,
    range: Text,
    range_span: Span,
    step: Option<Text>,
    close: Span,
) -> Result<ParserMode, Memory>
    ensures { IfOk result (λ m. mode_of m ≡ machine.ExpectOperator (machine.Sighted (machine.OfSubquery (tree of.value)) (grammar.stepped range range_span step) (grammar.to (trees_of.span_of (tree of.value)) close) close.end)) }
{
    let span = to(span_of(&of), close);
    Ok(ParserMode::ExpectOperator(Operand::Sighted(
        Subject::Subquery(of),
        Box::new(alloc, ranged(range, step, range_span))?,
        span,
        close.end,
    )))
}

/// Takes the token behind the `:` of a subquery: its step, or the `]`. Any other token gives no place.
pub fn after_colon(
    alloc: Global,
    of: Box<Expr>,
    range: Text,
    range_span: Span,
    token: MarkedToken,
) -> Result<Option<ParserMode>, Memory>
    ensures { IfOk result (λ p. (ps : List ParserFrame) → next ps p ≡ machine.after_colon (frames_of ps) (tree of.value) range range_span (token_of token.entry)) }
{
    match token.mark {
        Mark::Duration => {
            let step = Text::of(alloc, token.text)?;
            Ok(Some(ParserMode::AfterStep(of, range, range_span, step)))
        }
        Mark::Sign(Sign::CloseBracket) => {
            let mode = subquery(alloc, of, range, range_span, None, token.span)?;
            Ok(Some(mode))
        }
        _ => Ok(None),
    }
}

/// Takes the token behind the step of a subquery, which is the `]`. Any other token gives no place.
pub fn after_step(
    alloc: Global,
    of: Box<Expr>,
    range: Text,
    range_span: Span,
    step: Text,
    token: MarkedToken,
) -> Result<Option<ParserMode>, Memory>
    ensures { IfOk result (λ p. (ps : List ParserFrame) → next ps p ≡ machine.after_step (frames_of ps) (tree of.value) range range_span step (token_of token.entry)) }
{
    match token.mark {
        Mark::Sign(Sign::CloseBracket) => {
            let mode = subquery(alloc, of, range, range_span, Some(step), token.span)?;
            Ok(Some(mode))
        }
        _ => Ok(None),
    }
}
