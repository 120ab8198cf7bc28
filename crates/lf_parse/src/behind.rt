//! Behind an operand: an operator is expected, or what else may stand there.
ghost use Rattle.std.specs.Prelude.{◌≡◌, [], IfOk};
ghost use Rattle.lf_ast.specs.Tree.{tree, trees};
ghost use Rattle.lf_parse.specs.reading.Machine as machine;
ghost use Rattle.lf_parse.specs.views.Values.{token_of, frames_of, next, operand_of, subject_of};

use crate::braces::opened;
use crate::calls::aggregation;
use crate::follower::{Follower, follower_of};
use crate::mark::MarkedToken;
use crate::mode::{Callee, Operand, ParserFrame, ParserMode, Subject, blank, subject_tree};
use crate::mods::ModStage;
use crate::names::Names;
use crate::reduce::after;
use lf_ast::{Agg, Expr, Grouping, Matcher, Sight};
use lf_base::{Memory, Seq, Span, Text};
use std::alloc::Global;

/// Takes the token behind an operand to which only a bracket comes.
fn whole_step(
    alloc: Global,
    stack: &mut Vec<ParserFrame>,
    operand: Box<Expr>,
    end: u32,
    follower: Follower,
    token: MarkedToken,
) -> Result<Option<ParserMode>, Memory>
    ensures { IfOk result (λ p. next stack.new.items p ≡ machine.whole_step (frames_of stack.old.items) (tree operand.value) end follower (token_of token.entry)) }
{
    match follower {
        Follower::Bracket => { Ok(Some(ParserMode::AfterBracket(Operand::Whole(operand, end)))) }
        _ => after(alloc, stack, Box::into_inner(operand), end, token),
    }
}

/// A selector that is a word alone, as what modifiers come to.
pub fn of_word(alloc: Global, name: Text) -> Subject
    ensures { subject_of result ≡ machine.OfSelector (Some name) [] }
{
    Subject::Selector(Some(name), Seq::new(alloc))
}

/// Takes the token behind a word alone, which is a function where `(` follows and else names a metric.
fn bare_step(
    alloc: Global,
    stack: &mut Vec<ParserFrame>,
    name: Text,
    span: Span,
    follower: Follower,
    token: MarkedToken,
) -> Result<Option<ParserMode>, Memory>
    ensures { IfOk result (λ p. next stack.new.items p ≡ machine.bare_step (frames_of stack.old.items) name span follower (token_of token.entry)) }
{
    match follower {
        Follower::Bracket => Ok(Some(ParserMode::AfterBracket(Operand::Bare(name, span)))),
        Follower::Paren => Ok(Some(ParserMode::First(Callee::Call(name, span)))),
        Follower::Brace => Ok(Some(ParserMode::InBraces(Some(name), span, opened(alloc)?))),
        Follower::Offset => Ok(Some(ParserMode::InMod(
            of_word(alloc, name),
            Box::new(alloc, blank(span))?,
            span,
            ModStage::AfterOffset,
        ))),
        Follower::At => Ok(Some(ParserMode::InMod(
            of_word(alloc, name),
            Box::new(alloc, blank(span))?,
            span,
            ModStage::AfterAt,
        ))),
        _ => {
            let selector = Expr::Selector {
                name: Some(name),
                matchers: Seq::new(alloc),
                sight: blank(span),
                span,
            };
            after(alloc, stack, selector, span.end, token)
        }
    }
}

/// Takes the token behind a selector with braces.
fn selected_step(
    alloc: Global,
    stack: &mut Vec<ParserFrame>,
    name: Option<Text>,
    matchers: Seq<Matcher>,
    span: Span,
    follower: Follower,
    token: MarkedToken,
) -> Result<Option<ParserMode>, Memory>
    ensures { IfOk result (λ p. next stack.new.items p ≡ machine.selected_step (frames_of stack.old.items) name matchers span follower (token_of token.entry)) }
{
    match follower {
        Follower::Bracket => Ok(Some(ParserMode::AfterBracket(Operand::Selected(
            name, matchers, span,
        )))),
        Follower::Offset => Ok(Some(ParserMode::InMod(
            Subject::Selector(name, matchers),
            Box::new(alloc, blank(span))?,
            span,
            ModStage::AfterOffset,
        ))),
        Follower::At => Ok(Some(ParserMode::InMod(
            Subject::Selector(name, matchers),
            Box::new(alloc, blank(span))?,
            span,
            ModStage::AfterAt,
        ))),
        _ => {
            let selector = Expr::Selector {
                name,
                matchers,
                sight: blank(span),
                span,
            };
            after(alloc, stack, selector, span.end, token)
        }
    }
}

/// Takes the token behind an aggregation whose arguments are there and whose grouping may still come.
fn aggregated_step(
    alloc: Global,
    stack: &mut Vec<ParserFrame>,
    op: Agg,
    args: Seq<Expr>,
    span: Span,
    end: u32,
    follower: Follower,
    token: MarkedToken,
) -> Result<Option<ParserMode>, Memory>
    ensures { IfOk result (λ p. next stack.new.items p ≡ machine.aggregated_step (frames_of stack.old.items) op (trees args) span end follower (token_of token.entry)) }
{
    match follower {
        Follower::Bracket => Ok(Some(ParserMode::AfterBracket(Operand::Aggregated(
            op, args, span, end,
        )))),
        Follower::Grouping(clause) => Ok(Some(ParserMode::InGroupingBehind(
            op,
            span,
            args,
            clause,
            Names::Opening,
        ))),
        _ => {
            let whole = aggregation(op, Grouping::None, args, span);
            after(alloc, stack, whole, end, token)
        }
    }
}

/// Takes the token behind a selector or a subquery with a range or modifiers. A second offset or a second time is no expression.
fn sighted_step(
    alloc: Global,
    stack: &mut Vec<ParserFrame>,
    subject: Subject,
    sight: Box<Sight>,
    span: Span,
    end: u32,
    follower: Follower,
    token: MarkedToken,
) -> Result<Option<ParserMode>, Memory>
    ensures { IfOk result (λ p. next stack.new.items p ≡ machine.sighted_step (frames_of stack.old.items) (subject_of subject) sight.value span end follower (token_of token.entry)) }
{
    match follower {
        Follower::Bracket => Ok(Some(ParserMode::AfterBracket(Operand::Sighted(
            subject, sight, span, end,
        )))),
        Follower::Offset => match &sight.offset {
            None => Ok(Some(ParserMode::InMod(subject, sight, span, ModStage::AfterOffset))),
            Some(_) => Ok(None),
        },
        Follower::At => match &sight.at {
            None => Ok(Some(ParserMode::InMod(subject, sight, span, ModStage::AfterAt))),
            Some(_) => Ok(None),
        },
        _ => {
            let operand = subject_tree(subject, sight, span);
            after(alloc, stack, operand, end, token)
        }
    }
}

/// Takes the token behind an operand.
pub fn expect_operator(
    alloc: Global,
    stack: &mut Vec<ParserFrame>,
    operand: Operand,
    token: MarkedToken,
) -> Result<Option<ParserMode>, Memory>
    ensures { IfOk result (λ p. next stack.new.items p ≡ machine.expect_operator (frames_of stack.old.items) (operand_of operand) (token_of token.entry)) }
{
    let follower = follower_of(token);
    match operand {
        Operand::Whole(operand, end) => whole_step(alloc, stack, operand, end, follower, token),
        Operand::Bare(name, span) => bare_step(alloc, stack, name, span, follower, token),
        Operand::Selected(name, matchers, span) => {
            selected_step(alloc, stack, name, matchers, span, follower, token)
        }
        Operand::Aggregated(op, args, span, end) => {
            aggregated_step(alloc, stack, op, args, span, end, follower, token)
        }
        Operand::Sighted(subject, sight, span, end) => {
            sighted_step(alloc, stack, subject, sight, span, end, follower, token)
        }
    }
}
