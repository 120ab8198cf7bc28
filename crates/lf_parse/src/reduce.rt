//! From what was begun to trees.
ghost use Rattle.std.specs.Prelude.{◌≡◌, IfOk};
ghost use Rattle.lf_ast.specs.Tree as trees_of;
ghost use Rattle.lf_ast.specs.Tree.{tree, trees, with_last};
ghost use Rattle.lf_parse.specs.reading.Machine as machine;
ghost use Rattle.lf_parse.specs.views.Values.{token_of, frames_of, next, callee_of, operand_of, option_tree};

use crate::calls::{aggregation, call};
use crate::mark::{Mark, MarkedToken};
use crate::mode::{Callee, Operand, ParserFrame, ParserMode};
use crate::operator::{UNARY, left_level, level, op_of};
use crate::span::{to, up_to};
use crate::stage::Stage;
use lf_ast::{Expr, Matching, Op};
use lf_base::{Memory, Seq, Span};
use lf_lex::Sign;
use std::alloc::Global;

/// Makes trees of the operators from a level on. The operand ends at an offset in the source, and so do these.
pub fn reduce(
    alloc: Global,
    least: u32,
    end: u32,
    stack: &mut Vec<ParserFrame>,
    operand: Expr,
) -> Result<Expr, Memory>
    ensures { IfOk result (λ e. machine.held (frames_of stack.new.items) (tree e) ≡ machine.reduce least end (frames_of stack.old.items) (tree operand)) }
{
    let mut operand = operand;
    loop {
        match stack.pop() {
            None => return Ok(operand),
            Some(ParserFrame::LeftOf(op, span, modifier, left)) if level(op) >= least => {
                operand = binary(alloc, op, span, modifier, left, operand)?;
            }
            Some(ParserFrame::Signed(minus, sign)) if least <= UNARY => {
                operand = unary(alloc, minus, up_to(sign, end), operand)?;
            }
            Some(other) => {
                stack.push(other)?;
                return Ok(operand);
            }
        }
    }
}

/// An operator with its modifier and its two sides.
fn binary(
    alloc: Global,
    op: Op,
    span: Span,
    modifier: Matching,
    left: Box<Expr>,
    right: Expr,
) -> Result<Expr, Memory>
    ensures { IfOk result (λ e. tree e ≡ trees_of.Binary op modifier (tree left.value) (tree right) span) }
{
    Ok(Expr::Binary {
        op,
        modifier,
        left,
        right: Box::new(alloc, right)?,
        span,
    })
}

/// A sign, minus or plus, before an operand.
fn unary(alloc: Global, minus: bool, span: Span, of: Expr) -> Result<Expr, Memory>
    ensures { IfOk result (λ e. tree e ≡ trees_of.Unary minus (tree of) span) }
{
    Ok(Expr::Unary {
        minus,
        of: Box::new(alloc, of)?,
        span,
    })
}

/// An expression in parentheses.
fn paren(alloc: Global, span: Span, of: Expr) -> Result<Expr, Memory>
    ensures { IfOk result (λ e. tree e ≡ trees_of.Paren (tree of) span) }
{
    Ok(Expr::Paren {
        of: Box::new(alloc, of)?,
        span,
    })
}

/// Arguments with one more.
#[tactic(auto, using(lf_ast::proofs::TreeOf::trees_last))]
fn with_last(args: Seq<Expr>, last: Expr) -> Result<Seq<Expr>, Memory>
    ensures { IfOk result (λ all. trees all ≡ with_last (trees args) (tree last)) }
{
    let mut args = args;
    args.push(last)?;
    Ok(args)
}

/// A call or an aggregation with its arguments, whose `)` has a span.
pub fn applied(
    alloc: Global,
    callee: Callee,
    args: Seq<Expr>,
    close: Span,
) -> Result<Operand, Memory>
    ensures { IfOk result (λ x. operand_of x ≡ machine.applied (callee_of callee) (trees args) close) }
{
    match callee {
        Callee::Call(name, span) => {
            let whole = Box::new(alloc, call(name, args, span))?;
            Ok(Operand::Whole(whole, close.end))
        }
        Callee::Aggregate(op, span) => Ok(Operand::Aggregated(op, args, span, close.end)),
        Callee::Grouped(op, grouping, span) => {
            let whole = Box::new(alloc, aggregation(op, grouping, args, span))?;
            Ok(Operand::Whole(whole, close.end))
        }
    }
}

/// Takes a `)` behind an operand, which ends at an offset: it closes a parenthesis or arguments.
fn close(
    alloc: Global,
    stack: &mut Vec<ParserFrame>,
    operand: Expr,
    end: u32,
    close: Span,
) -> Result<Option<ParserMode>, Memory>
    ensures { IfOk result (λ p. let h = machine.reduce 1 end (frames_of stack.old.items) (tree operand) in next stack.new.items p ≡ machine.close close h.frames h.tree) }
{
    let inner = reduce(alloc, 1, end, stack, operand)?;
    match stack.pop() {
        Some(ParserFrame::Paren(open)) => {
            let whole = paren(alloc, to(open, close), inner)?;
            let whole = Box::new(alloc, whole)?;
            Ok(Some(ParserMode::ExpectOperator(Operand::Whole(whole, close.end))))
        }
        Some(ParserFrame::Args(callee, args)) => {
            let args = with_last(args, inner)?;
            Ok(Some(ParserMode::ExpectOperator(applied(alloc, callee, args, close)?)))
        }
        _ => Ok(None),
    }
}

/// Takes a `,` behind an operand, which ends at an offset: the next argument comes.
fn comma(
    alloc: Global,
    stack: &mut Vec<ParserFrame>,
    operand: Expr,
    end: u32,
) -> Result<Option<ParserMode>, Memory>
    ensures { IfOk result (λ p. let h = machine.reduce 1 end (frames_of stack.old.items) (tree operand) in next stack.new.items p ≡ machine.comma h.frames h.tree) }
{
    let inner = reduce(alloc, 1, end, stack, operand)?;
    match stack.pop() {
        Some(ParserFrame::Args(callee, args)) => {
            let args = with_last(args, inner)?;
            stack.push(ParserFrame::Args(callee, args))?;
            Ok(Some(ParserMode::ExpectOperand))
        }
        _ => Ok(None),
    }
}

/// Takes an operator behind an operand, which ends at an offset. What binds tighter to the left of it is one tree from here on.
fn joined(
    alloc: Global,
    stack: &mut Vec<ParserFrame>,
    operand: Expr,
    end: u32,
    span: Span,
    op: Option<Op>,
) -> Result<Option<ParserMode>, Memory>
    ensures { IfOk result (λ p. next stack.new.items p ≡ machine.joined (frames_of stack.old.items) (tree operand) end span op) }
{
    match op {
        None => Ok(None),
        Some(op) => {
            let left = reduce(alloc, left_level(op), end, stack, operand)?;
            let left = Box::new(alloc, left)?;
            Ok(Some(ParserMode::Modifying(op, span, left, Stage::Begin)))
        }
    }
}

/// Takes the token behind an operand, which ends at an offset in the source.
pub fn after(
    alloc: Global,
    stack: &mut Vec<ParserFrame>,
    operand: Expr,
    end: u32,
    token: MarkedToken,
) -> Result<Option<ParserMode>, Memory>
    ensures { IfOk result (λ p. next stack.new.items p ≡ machine.after (frames_of stack.old.items) (tree operand) end (token_of token.entry)) }
{
    match token.mark {
        Mark::Sign(Sign::CloseParen) => close(alloc, stack, operand, end, token.span),
        Mark::Sign(Sign::Comma) => comma(alloc, stack, operand, end),
        mark => joined(alloc, stack, operand, end, token.span, op_of(mark)),
    }
}

/// The whole expression, if this is its end.
pub fn ended(
    alloc: Global,
    stack: Vec<ParserFrame>,
    operand: Expr,
    end: u32,
) -> Result<Option<Expr>, Memory>
    ensures { IfOk result (λ e. let h = machine.reduce 1 end (frames_of stack.items) (tree operand) in option_tree e ≡ machine.ended h.frames h.tree) }
{
    let mut stack = stack;
    let whole = reduce(alloc, 1, end, &mut stack, operand)?;
    if stack.is_empty() {
        Ok(Some(whole))
    } else {
        Ok(None)
    }
}
