//! The parser as a machine that takes one token at a time.
ghost use Rattle.std.specs.Prelude.{◌≡◌, List, IfOk};
ghost use Rattle.lf_parse.specs.declared.mode.ParserFrame.{ParserFrame};
ghost use Rattle.lf_ast.specs.Tree.{tree};
ghost use Rattle.lf_parse.specs.Grammar as grammar;
ghost use Rattle.lf_parse.specs.reading.Machine as machine;
ghost use Rattle.lf_parse.specs.views.Values.{token_of, frames_of, mode_of, next, option_tree, option_operand, subject_of, stage_of, braces_of, mod_stage_of, mod_with_end, mod_of, step_of};

use crate::behind::expect_operator;
use crate::braces::{Braces, braces_step};
use crate::grouping::{after_aggregation, after_grouping, in_grouping, in_grouping_behind};
use crate::mark::MarkedToken;
use crate::mode::{Operand, ParserFrame, ParserMode, Subject, operand_tree};
use crate::mods::{Mod, ModStage, mod_step};
use crate::names::names_step;
use crate::operand::{expect_operand, expect_operand_in, first};
use crate::range::{after_bracket, after_colon, after_range, after_step};
use crate::reduce::ended;
use crate::span::to;
use crate::stage::{Stage, stage_step};
use crate::step::ParserStep;
use lf_ast::{Expr, Matcher, Matching, Op, Sight};
use lf_base::{Memory, Seq, Span, Text};
use std::alloc::Global;

/// In the modifier of an operator.
fn modified(
    alloc: Global,
    stack: &mut Vec<ParserFrame>,
    op: Op,
    span: Span,
    left: Box<Expr>,
    taken: ParserStep<Stage, Matching>,
    token: MarkedToken,
) -> Result<Option<ParserMode>, Memory>
    ensures { IfOk result (λ p. next stack.new.items p ≡ machine.modified (frames_of stack.old.items) op span (tree left.value) (token_of token.entry) (step_of stage_of (λ m. m) taken)) }
{
    match taken {
        ParserStep::More(stage) => Ok(Some(ParserMode::Modifying(op, span, left, stage))),
        ParserStep::Done(modifier) => {
            stack.push(ParserFrame::LeftOf(op, span, modifier, left))?;
            Ok(Some(ParserMode::ExpectOperand))
        }
        ParserStep::DoneBefore(modifier) => {
            let begun = ParserFrame::LeftOf(op, span, modifier, left);
            expect_operand_in(alloc, stack, begun, token)
        }
        ParserStep::Reject => Ok(None),
    }
}

/// Goes on inside the braces of a selector, by what they did with a token.
fn in_braces(
    name: Option<Text>,
    span: Span,
    taken: ParserStep<Braces, (Seq<Matcher>, Span)>,
) -> Option<ParserMode>
    ensures { (ps : List ParserFrame) → next ps result ≡ machine.in_braces (frames_of ps) name span (step_of braces_of (λ v. v) taken) }
{
    match taken {
        ParserStep::More(braces) => Some(ParserMode::InBraces(name, span, braces)),
        ParserStep::Done((matchers, close)) => Some(ParserMode::ExpectOperator(Operand::Selected(
            name,
            matchers,
            to(span, close),
        ))),
        ParserStep::DoneBefore(_) | ParserStep::Reject => None,
    }
}

/// Adds an offset or a time to what stands behind a selector or a subquery.
fn add_mod(sight: &mut Sight, modifier: Mod)
    ensures { sight.new ≡ grammar.with_mod sight.old (mod_of modifier) }
{
    match modifier {
        Mod::Offset(text) => sight.offset = Some(text),
        Mod::At(text) => sight.at = Some(text),
    }
}

/// Goes on inside an offset or a time, by what it did with a token.
fn in_mod(
    subject: Subject,
    sight: Box<Sight>,
    span: Span,
    taken: ParserStep<ModStage, (Mod, u32)>,
) -> Option<ParserMode>
    ensures { (ps : List ParserFrame) → next ps result ≡ machine.in_mod (frames_of ps) (subject_of subject) sight.value span (step_of mod_stage_of mod_with_end taken) }
{
    match taken {
        ParserStep::More(stage) => Some(ParserMode::InMod(subject, sight, span, stage)),
        ParserStep::Done((modifier, end)) => {
            let mut sight = sight;
            add_mod(&mut sight, modifier);
            Some(ParserMode::ExpectOperator(Operand::Sighted(subject, sight, span, end)))
        }
        ParserStep::DoneBefore(_) | ParserStep::Reject => None,
    }
}

/// Takes the next token, unless no expression goes on with it.
pub fn advance(
    alloc: Global,
    stack: &mut Vec<ParserFrame>,
    mode: ParserMode,
    token: MarkedToken,
) -> Result<Option<ParserMode>, Memory>
    ensures { IfOk result (λ p. next stack.new.items p ≡ machine.step_in (frames_of stack.old.items) (mode_of mode) (token_of token.entry)) }
{
    match mode {
        ParserMode::ExpectOperand => expect_operand(alloc, stack, token),
        ParserMode::First(callee) => first(alloc, stack, callee, token),
        ParserMode::ExpectOperator(operand) => expect_operator(alloc, stack, operand, token),
        ParserMode::Modifying(op, span, left, stage) => {
            let taken = stage_step(alloc, span, stage, token)?;
            modified(alloc, stack, op, span, left, taken, token)
        }
        ParserMode::InBraces(name, span, braces) => {
            Ok(in_braces(name, span, braces_step(alloc, braces, token)?))
        }
        ParserMode::InMod(subject, sight, span, stage) => {
            Ok(in_mod(subject, sight, span, mod_step(alloc, stage, token)?))
        }
        ParserMode::AfterBracket(operand) => after_bracket(alloc, operand, token),
        ParserMode::AfterRange(operand, range, range_span) => {
            after_range(alloc, operand, range, range_span, token)
        }
        ParserMode::AfterColon(of, range, range_span) => {
            after_colon(alloc, of, range, range_span, token)
        }
        ParserMode::AfterStep(of, range, range_span, step) => {
            after_step(alloc, of, range, range_span, step, token)
        }
        ParserMode::AfterAggregation(op, span) => Ok(after_aggregation(op, span, token)),
        ParserMode::InGrouping(op, span, clause, names) => {
            let taken = names_step(alloc, names, token)?;
            Ok(in_grouping(op, span, clause, taken))
        }
        ParserMode::AfterGrouping(op, span, grouping) => Ok(after_grouping(
            op, span, grouping, token,
        )),
        ParserMode::InGroupingBehind(op, span, args, clause, names) => {
            let taken = names_step(alloc, names, token)?;
            in_grouping_behind(alloc, op, span, args, clause, taken)
        }
    }
}

/// The operand that was read last, if one was.
fn last_operand(mode: ParserMode) -> Option<Operand>
    ensures { option_operand result ≡ machine.last_operand (mode_of mode) }
{
    match mode {
        ParserMode::ExpectOperator(operand) => Some(operand),
        other => {
            drop(other);
            None
        }
    }
}

/// The whole expression, if this is its end.
pub fn finish(
    alloc: Global,
    stack: Vec<ParserFrame>,
    mode: ParserMode,
) -> Result<Option<Expr>, Memory>
    ensures { IfOk result (λ e. option_tree e ≡ machine.finish_in (frames_of stack.items) (mode_of mode)) }
{
    match last_operand(mode) {
        Some(operand) => {
            let (operand, end) = operand_tree(alloc, operand);
            ended(alloc, stack, operand, end)
        }
        None => Ok(None),
    }
}
