//! Where an operand is expected.
ghost use Rattle.std.specs.Prelude.{◌≡◌, ◌∷◌, IfOk};
ghost use Rattle.lf_ast.specs.Tree as trees_of;
ghost use Rattle.lf_parse.specs.reading.Machine as machine;
ghost use Rattle.lf_parse.specs.views.Values.{token_of, frame_of, frames_of, next, callee_of, operand_of};

use crate::braces::opened;
use crate::class::WordClass;
use crate::mark::{Mark, MarkedToken};
use crate::mode::{Callee, Operand, ParserFrame, ParserMode};
use crate::reduce::applied;
use lf_ast::Expr;
use lf_base::{Memory, Seq, Text};
use lf_lex::Sign;
use std::alloc::Global;

/// A number as it is written.
fn number(alloc: Global, token: MarkedToken) -> Result<Operand, Memory>
    ensures { IfOk result (λ x. operand_of x ≡ machine.Whole (trees_of.Number token.entry.text.now token.entry.span) token.entry.span.end) }
{
    let number = Expr::Number {
        text: Text::of(alloc, token.text)?,
        span: token.span,
    };
    Ok(Operand::Whole(Box::new(alloc, number)?, token.span.end))
}

/// A string, without its quotes and escapes.
fn string(alloc: Global, token: MarkedToken) -> Result<Operand, Memory>
    ensures { IfOk result (λ x. operand_of x ≡ machine.Whole (trees_of.Str token.entry.text.now token.entry.span) token.entry.span.end) }
{
    let string = Expr::Str {
        text: Text::of(alloc, token.text)?,
        span: token.span,
    };
    Ok(Operand::Whole(Box::new(alloc, string)?, token.span.end))
}

/// A word that names a metric or a function.
fn bare(alloc: Global, token: MarkedToken) -> Result<Operand, Memory>
    ensures { IfOk result (λ x. operand_of x ≡ machine.Bare token.entry.text.now token.entry.span) }
{
    Ok(Operand::Bare(Text::of(alloc, token.text)?, token.span))
}

/// Takes the token where an operand is expected.
pub fn expect_operand(
    alloc: Global,
    stack: &mut Vec<ParserFrame>,
    token: MarkedToken,
) -> Result<Option<ParserMode>, Memory>
    ensures { IfOk result (λ p. next stack.new.items p ≡ machine.expect_operand (frames_of stack.old.items) (token_of token.entry)) }
{
    match token.mark {
        Mark::Number | Mark::Word(WordClass::Numeric) => {
            Ok(Some(ParserMode::ExpectOperator(number(alloc, token)?)))
        }
        Mark::Str => Ok(Some(ParserMode::ExpectOperator(string(alloc, token)?))),
        Mark::Word(WordClass::Plain) | Mark::Word(WordClass::Edge(_)) | Mark::Metric => {
            Ok(Some(ParserMode::ExpectOperator(bare(alloc, token)?)))
        }
        Mark::Word(WordClass::Aggregation(op)) => Ok(Some(ParserMode::AfterAggregation(
            op, token.span,
        ))),
        Mark::Sign(Sign::OpenBrace) => Ok(Some(ParserMode::InBraces(
            None,
            token.span,
            opened(alloc)?,
        ))),
        Mark::Sign(Sign::OpenParen) => {
            stack.push(ParserFrame::Paren(token.span))?;
            Ok(Some(ParserMode::ExpectOperand))
        }
        Mark::Sign(Sign::Plus) => {
            stack.push(ParserFrame::Signed(false, token.span))?;
            Ok(Some(ParserMode::ExpectOperand))
        }
        Mark::Sign(Sign::Minus) => {
            stack.push(ParserFrame::Signed(true, token.span))?;
            Ok(Some(ParserMode::ExpectOperand))
        }
        _ => Ok(None),
    }
}

/// Puts a frame on the stack, inside which an operand is expected, and takes the token.
pub fn expect_operand_in(
    alloc: Global,
    stack: &mut Vec<ParserFrame>,
    begun: ParserFrame,
    token: MarkedToken,
) -> Result<Option<ParserMode>, Memory>
    ensures { IfOk result (λ p. next stack.new.items p ≡ machine.expect_operand (frame_of begun ∷ frames_of stack.old.items) (token_of token.entry)) }
{
    stack.push(begun)?;
    expect_operand(alloc, stack, token)
}

/// Takes the token where the first argument or `)` is expected.
pub fn first(
    alloc: Global,
    stack: &mut Vec<ParserFrame>,
    callee: Callee,
    token: MarkedToken,
) -> Result<Option<ParserMode>, Memory>
    ensures { IfOk result (λ p. next stack.new.items p ≡ machine.first (frames_of stack.old.items) (callee_of callee) (token_of token.entry)) }
{
    match token.mark {
        Mark::Sign(Sign::CloseParen) => {
            let operand = applied(alloc, callee, Seq::new(alloc), token.span)?;
            Ok(Some(ParserMode::ExpectOperator(operand)))
        }
        _ => {
            // Most have one argument.
            let args = Vec::with_capacity(alloc, 1)?;
            let begun = ParserFrame::Args(callee, Seq::from_vec(args));
            expect_operand_in(alloc, stack, begun, token)
        }
    }
}
