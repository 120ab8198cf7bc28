//! The groupings of aggregations.
ghost use Rattle.std.specs.Prelude.{◌≡◌, List, IfOk};
ghost use Rattle.lf_parse.specs.declared.mode.ParserFrame.{ParserFrame};
ghost use Rattle.lf_ast.specs.Tree.{trees};
ghost use Rattle.lf_parse.specs.Grammar as grammar;
ghost use Rattle.lf_parse.specs.reading.Machine as machine;
ghost use Rattle.lf_parse.specs.views.Values.{token_of, frames_of, next, names_of, step_of};

use crate::calls::aggregation;
use crate::class::{Clause, WordClass};
use crate::mark::{Mark, MarkedToken};
use crate::mode::{Callee, Operand, ParserMode};
use crate::names::Names;
use crate::step::ParserStep;
use lf_ast::{Agg, Expr, Grouping, Name};
use lf_base::{Memory, Seq, Span};
use lf_lex::Sign;
use std::alloc::Global;

/// Takes the token behind the name of an aggregation, which has a span: its arguments or its grouping begin. Any other token gives no place.
pub fn after_aggregation(op: Agg, span: Span, token: MarkedToken) -> Option<ParserMode>
    ensures { (ps : List ParserFrame) → next ps result ≡ machine.after_aggregation (frames_of ps) op span (token_of token.entry) }
{
    match token.mark {
        Mark::Sign(Sign::OpenParen) => Some(ParserMode::First(Callee::Aggregate(op, span))),
        Mark::Word(WordClass::Grouping(clause)) => {
            Some(ParserMode::InGrouping(op, span, clause, Names::Opening))
        }
        _ => None,
    }
}

/// The grouping that a clause and its labels are.
fn grouping(clause: Clause, labels: Seq<Name>) -> Grouping
    ensures { result ≡ grammar.grouping clause labels }
{
    match clause {
        Clause::By => Grouping::By { labels },
        Clause::Without => Grouping::Without { labels },
    }
}

/// Goes on inside the labels of a grouping before the arguments, by what they did with a token.
pub fn in_grouping(
    op: Agg,
    span: Span,
    clause: Clause,
    taken: ParserStep<Names, (Seq<Name>, Span)>,
) -> Option<ParserMode>
    ensures { (ps : List ParserFrame) → next ps result ≡ machine.in_grouping (frames_of ps) op span clause (step_of names_of (λ v. v) taken) }
{
    match taken {
        ParserStep::More(names) => Some(ParserMode::InGrouping(op, span, clause, names)),
        ParserStep::Done((labels, _)) => Some(ParserMode::AfterGrouping(
            op,
            span,
            grouping(clause, labels),
        )),
        ParserStep::DoneBefore(_) | ParserStep::Reject => None,
    }
}

/// Takes the token behind a grouping before the arguments, which begin with `(`. Any other token gives no place.
pub fn after_grouping(
    op: Agg,
    span: Span,
    grouping: Grouping,
    token: MarkedToken,
) -> Option<ParserMode>
    ensures { (ps : List ParserFrame) → next ps result ≡ machine.after_grouping (frames_of ps) op span grouping (token_of token.entry) }
{
    match token.mark {
        Mark::Sign(Sign::OpenParen) => Some(ParserMode::First(Callee::Grouped(op, grouping, span))),
        _ => None,
    }
}

/// Goes on inside the labels of a grouping behind the arguments, by what they did with a token.
pub fn in_grouping_behind(
    alloc: Global,
    op: Agg,
    span: Span,
    args: Seq<Expr>,
    clause: Clause,
    taken: ParserStep<Names, (Seq<Name>, Span)>,
) -> Result<Option<ParserMode>, Memory>
    ensures { IfOk result (λ p. (ps : List ParserFrame) → next ps p ≡ machine.in_grouping_behind (frames_of ps) op span (trees args) clause (step_of names_of (λ v. v) taken)) }
{
    match taken {
        ParserStep::More(names) => Ok(Some(ParserMode::InGroupingBehind(
            op, span, args, clause, names,
        ))),
        ParserStep::Done((labels, close)) => {
            let whole = aggregation(op, grouping(clause, labels), args, span);
            let whole = Box::new(alloc, whole)?;
            Ok(Some(ParserMode::ExpectOperator(Operand::Whole(whole, close.end))))
        }
        ParserStep::DoneBefore(_) | ParserStep::Reject => Ok(None),
    }
}
