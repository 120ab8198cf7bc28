//! The modifier of an operator: `bool`, `on` and `ignoring` with their labels, and the group modifiers.
ghost use Rattle.std.specs.Prelude.{◌≡◌, IfOk};
ghost use Rattle.lf_parse.specs.Grammar as grammar;
ghost use Rattle.lf_parse.specs.reading.Machine as machine;
ghost use Rattle.lf_parse.specs.views.Values.{token_of, names_of, front_of, stage_of, step_of};

use crate::class::{Scope, Side, WordClass};
use crate::mark::{Mark, MarkedToken};
use crate::names::{Names, names_step};
use crate::span::{behind, to};
use crate::step::ParserStep;
use lf_ast::{Group, Matching, Name};
use lf_base::{Memory, Seq, Span};
use lf_lex::Sign;
use std::alloc::Global;

/// How a modifier with labels begins.
#[derive(Clone, Copy, Drop)]
pub struct Front {
    /// Whether `bool` came.
    pub with_bool: bool,
    /// The span of its first token.
    pub first: Span,
    /// Whether it says `on` or `ignoring`.
    pub scope: Scope,
}

/// Where the modifier of an operator is.
#[derive(Drop)]
pub enum Stage {
    /// Behind the operator.
    Begin,
    /// Behind `bool`, which has a span.
    AfterBool(Span),
    /// In the labels of `on` or `ignoring`.
    InLabels(Front, Names),
    /// Behind them. The span is that of their `)`.
    AfterLabels(Front, Seq<Name>, Span),
    /// Behind a group modifier, which has a span.
    AfterGroup(Front, Seq<Name>, Side, Span),
    /// In its labels.
    InInclude(Front, Seq<Name>, Side, Names),
}

/// A modifier without labels.
fn unmatched(alloc: Global, bool_mod: bool, span: Span) -> Matching
    ensures { result ≡ grammar.unmatched bool_mod span }
{
    Matching {
        bool_mod,
        on: None,
        ignoring: None,
        group: Group::One,
        include: Seq::new(alloc),
        span,
    }
}

/// A modifier with labels, which ends with a span.
fn matched(
    front: Front,
    labels: Seq<Name>,
    group: Group,
    include: Seq<Name>,
    last: Span,
) -> Matching
    ensures { result ≡ grammar.matched front.with_bool front.scope labels group include (grammar.to front.first last) }
{
    let span = to(front.first, last);
    match front.scope {
        Scope::On => Matching {
            bool_mod: front.with_bool,
            on: Some(labels),
            ignoring: None,
            group,
            include,
            span,
        },
        Scope::Ignoring => Matching {
            bool_mod: front.with_bool,
            on: None,
            ignoring: Some(labels),
            group,
            include,
            span,
        },
    }
}

/// The side of a group modifier.
fn many_of(side: Side) -> Group
    ensures { result ≡ grammar.many_of side }
{
    match side {
        Side::Left => Group::Left,
        Side::Right => Group::Right,
    }
}

/// Takes the token right behind an operator.
fn begin(alloc: Global, operator: Span, token: MarkedToken) -> ParserStep<Stage, Matching>
    ensures { step_of stage_of (λ m. m) result ≡ machine.stage_step operator machine.Begin (token_of token.entry) }
{
    match token.mark {
        Mark::Word(WordClass::Bool) => ParserStep::More(Stage::AfterBool(token.span)),
        Mark::Word(WordClass::Matching(scope)) => {
            let front = Front {
                with_bool: false,
                first: token.span,
                scope,
            };
            ParserStep::More(Stage::InLabels(front, Names::Opening))
        }
        _ => ParserStep::DoneBefore(unmatched(alloc, false, behind(operator))),
    }
}

/// Takes the token behind `bool`.
fn after_bool(
    alloc: Global,
    operator: Span,
    first: Span,
    token: MarkedToken,
) -> ParserStep<Stage, Matching>
    ensures { step_of stage_of (λ m. m) result ≡ machine.stage_step operator (machine.AfterBool first) (token_of token.entry) }
{
    match token.mark {
        Mark::Word(WordClass::Matching(scope)) => {
            let front = Front {
                with_bool: true,
                first,
                scope,
            };
            ParserStep::More(Stage::InLabels(front, Names::Opening))
        }
        _ => ParserStep::DoneBefore(unmatched(alloc, true, first)),
    }
}

/// Goes on inside the labels of `on` or `ignoring`, by what they did with a token.
fn in_labels(
    front: Front,
    taken: ParserStep<Names, (Seq<Name>, Span)>,
) -> ParserStep<Stage, Matching>
    ensures { step_of stage_of (λ m. m) result ≡ machine.in_labels (front_of front) (step_of names_of (λ v. v) taken) }
{
    match taken {
        ParserStep::More(names) => ParserStep::More(Stage::InLabels(front, names)),
        ParserStep::Done((labels, close)) => ParserStep::More(Stage::AfterLabels(
            front, labels, close,
        )),
        ParserStep::DoneBefore(_) | ParserStep::Reject => ParserStep::Reject,
    }
}

/// Takes the token behind the labels of `on` or `ignoring`.
fn after_labels(
    alloc: Global,
    operator: Span,
    front: Front,
    labels: Seq<Name>,
    close: Span,
    token: MarkedToken,
) -> ParserStep<Stage, Matching>
    ensures { step_of stage_of (λ m. m) result ≡ machine.stage_step operator (machine.AfterLabels (front_of front) labels close) (token_of token.entry) }
{
    match token.mark {
        Mark::Word(WordClass::Group(side)) => {
            ParserStep::More(Stage::AfterGroup(front, labels, side, token.span))
        }
        _ => ParserStep::DoneBefore(matched(front, labels, Group::One, Seq::new(alloc), close)),
    }
}

/// Takes the token behind a group modifier. A `(` there opens its labels.
fn after_group(
    alloc: Global,
    operator: Span,
    front: Front,
    labels: Seq<Name>,
    side: Side,
    word: Span,
    token: MarkedToken,
) -> ParserStep<Stage, Matching>
    ensures { step_of stage_of (λ m. m) result ≡ machine.stage_step operator (machine.AfterGroup (front_of front) labels side word) (token_of token.entry) }
{
    match token.mark {
        Mark::Sign(Sign::OpenParen) => ParserStep::More(Stage::InInclude(
            front,
            labels,
            side,
            Names::Next(Seq::new(alloc)),
        )),
        _ => ParserStep::DoneBefore(matched(front, labels, many_of(side), Seq::new(alloc), word)),
    }
}

/// Goes on inside the labels of a group modifier, by what they did with a token.
fn in_include(
    front: Front,
    labels: Seq<Name>,
    side: Side,
    taken: ParserStep<Names, (Seq<Name>, Span)>,
) -> ParserStep<Stage, Matching>
    ensures { step_of stage_of (λ m. m) result ≡ machine.in_include (front_of front) labels side (step_of names_of (λ v. v) taken) }
{
    match taken {
        ParserStep::More(names) => ParserStep::More(Stage::InInclude(front, labels, side, names)),
        ParserStep::Done((include, close)) => {
            ParserStep::Done(matched(front, labels, many_of(side), include, close))
        }
        ParserStep::DoneBefore(_) | ParserStep::Reject => ParserStep::Reject,
    }
}

/// Takes the next token behind an operator, which has a span.
pub fn stage_step(
    alloc: Global,
    operator: Span,
    stage: Stage,
    token: MarkedToken,
) -> Result<ParserStep<Stage, Matching>, Memory>
    ensures { IfOk result (λ taken. step_of stage_of (λ m. m) taken ≡ machine.stage_step operator (stage_of stage) (token_of token.entry)) }
{
    match stage {
        Stage::Begin => Ok(begin(alloc, operator, token)),
        Stage::AfterBool(first) => Ok(after_bool(alloc, operator, first, token)),
        Stage::InLabels(front, names) => Ok(in_labels(front, names_step(alloc, names, token)?)),
        Stage::AfterLabels(front, labels, close) => {
            Ok(after_labels(alloc, operator, front, labels, close, token))
        }
        Stage::AfterGroup(front, labels, side, word) => {
            Ok(after_group(alloc, operator, front, labels, side, word, token))
        }
        Stage::InInclude(front, labels, side, names) => {
            let taken = names_step(alloc, names, token)?;
            Ok(in_include(front, labels, side, taken))
        }
    }
}
