//! Where the parser is: its stack of what was begun, and what is expected next.
ghost use Rattle.std.specs.Prelude.{◌≡◌};
ghost use Rattle.lf_ast.specs.Tree as trees;
ghost use Rattle.lf_parse.specs.Grammar as grammar;
ghost use Rattle.lf_parse.specs.reading.Machine as machine;
ghost use Rattle.lf_parse.specs.views.Values.{subject_of, operand_of};

use crate::braces::Braces;
use crate::calls::aggregation;
use crate::class::Clause;
use crate::mods::ModStage;
use crate::names::Names;
use crate::span::behind;
use crate::stage::Stage;
use lf_ast::{Agg, Expr, Grouping, Matcher, Matching, Op, Sight};
use lf_base::{Seq, Span, Text};
use std::alloc::Global;

/// What arguments belong to.
#[derive(Drop)]
pub enum Callee {
    /// A function, and its span.
    Call(Text, Span),
    /// An aggregation.
    Aggregate(Agg, Span),
    /// An aggregation whose grouping came before the arguments.
    Grouped(Agg, Grouping, Span),
}

/// A frame of the stack: what was begun and is not at its end.
#[derive(Drop)]
pub enum ParserFrame {
    /// An operator, its span and modifier, and its left operand.
    LeftOf(Op, Span, Matching, Box<Expr>),
    /// A sign before an operand: a minus sign, or else a plus sign.
    Signed(bool, Span),
    /// A parenthesis.
    Paren(Span),
    /// Arguments that have a comma behind them.
    Args(Callee, Seq<Expr>),
}

/// What an offset or a time comes to.
#[derive(Drop)]
pub enum Subject {
    Selector(Option<Text>, Seq<Matcher>),
    Subquery(Box<Expr>),
}

/// An operand. Where an offset in the source stands, it is that of its end. With each token one is moved several times, so what is large in it stands in a `Box`.
#[derive(Drop)]
pub enum Operand {
    /// One to which only a bracket comes.
    Whole(Box<Expr>, u32),
    /// A word alone.
    Bare(Text, Span),
    /// A selector with braces.
    Selected(Option<Text>, Seq<Matcher>, Span),
    /// An aggregation without a grouping.
    Aggregated(Agg, Seq<Expr>, Span, u32),
    /// A selector or a subquery with a range, an offset or a time.
    Sighted(Subject, Box<Sight>, Span, u32),
}

/// What is expected next, by what was read last. It is kept small, as an operand is.
#[derive(Drop)]
pub enum ParserMode {
    /// An operand is expected.
    ExpectOperand,
    /// The first argument or `)` is expected.
    First(Callee),
    /// An operand was read: an operator is expected, or what else may stand behind it.
    ExpectOperator(Operand),
    /// Behind an operator, in its modifier.
    Modifying(Op, Span, Box<Expr>, Stage),
    /// In the braces of a selector that began with a span.
    InBraces(Option<Text>, Span, Braces),
    /// In an offset or a time.
    InMod(Subject, Box<Sight>, Span, ModStage),
    /// Behind `[`.
    AfterBracket(Operand),
    /// Behind the duration of a range, and its span.
    AfterRange(Operand, Text, Span),
    /// Behind the `:` of a subquery.
    AfterColon(Box<Expr>, Text, Span),
    /// Behind the step of a subquery.
    AfterStep(Box<Expr>, Text, Span, Text),
    /// Behind the name of an aggregation.
    AfterAggregation(Agg, Span),
    /// In the labels of a grouping before the arguments, and behind them.
    InGrouping(Agg, Span, Clause, Names),
    AfterGrouping(Agg, Span, Grouping),
    /// In the labels of a grouping behind the arguments.
    InGroupingBehind(Agg, Span, Seq<Expr>, Clause, Names),
}

/// Nothing behind a selector with this span.
pub fn blank(span: Span) -> Sight
    ensures { result ≡ grammar.blank span }
{
    Sight {
        range: None,
        step: None,
        offset: None,
        at: None,
        range_span: behind(span),
    }
}

/// A selector or a subquery with what stands behind it.
pub fn subject_tree(subject: Subject, sight: Box<Sight>, span: Span) -> Expr
    ensures { trees.tree result ≡ machine.subject_tree (subject_of subject) sight.value span }
{
    let sight = Box::into_inner(sight);
    match subject {
        Subject::Selector(name, matchers) => Expr::Selector {
            name,
            matchers,
            sight,
            span,
        },
        Subject::Subquery(of) => Expr::Subquery { of, sight, span },
    }
}

/// The tree of an operand, with the offset of its end.
pub fn operand_tree(alloc: Global, operand: Operand) -> (Expr, u32)
    ensures tree { trees.tree result.0 ≡ machine.operand_tree (operand_of operand) }
    ensures end { result.1 ≡ machine.operand_end (operand_of operand) }
{
    match operand {
        Operand::Whole(expr, end) => (Box::into_inner(expr), end),
        Operand::Bare(name, span) => (
            Expr::Selector {
                name: Some(name),
                matchers: Seq::new(alloc),
                sight: blank(span),
                span,
            },
            span.end,
        ),
        Operand::Selected(name, matchers, span) => (
            Expr::Selector {
                name,
                matchers,
                sight: blank(span),
                span,
            },
            span.end,
        ),
        Operand::Aggregated(op, args, span, end) => {
            (aggregation(op, Grouping::None, args, span), end)
        }
        Operand::Sighted(subject, sight, span, end) => (subject_tree(subject, sight, span), end),
    }
}
