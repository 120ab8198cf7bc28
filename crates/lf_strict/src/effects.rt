//! What functions and aggregations give, by what they do to labels.
ghost use Rattle.std.specs.Prelude.{IfOk, IfSome, List};
ghost use Rattle.std.specs.Option.{option_map};
ghost use Rattle.lf_ast.specs.Arguments.{text_at, texts_of};
ghost use Rattle.lf_ast.specs.Functions.{signature_of};
ghost use Rattle.lf_ast.specs.Labels.{Labels};
ghost use Rattle.lf_ast.specs.Tree.{Tree, trees};
ghost use Rattle.lf_witness.specs.Ascending.{IsAscending};
ghost use Rattle.lf_witness.specs.Strict.{From, IsCountedAsOne, MadeTogether, StrictCall, StrictDate, StrictEffect, StrictlyEvaluates};
ghost use Rattle.lf_witness.specs.StrictRuns.{InOrder, IsStrictAnswer};

use crate::absence::absent;
use crate::joining::Joined;
use crate::lending::Samples;
use crate::operand::{operand_apart, operand_together, quantile};
use crate::replacing::replaced;
use crate::samples::{CountedAsOne, Grouped, Nameless};
use crate::sets::bare;
use lf_ast::{Expr, Function, Grouping, LabelEffect, LabelSet, text_at};
use lf_base::{Memory, Text};
use std::alloc::Global;

/// What a call of a function gives of its operand, which is None where there is no such argument. A call of no function is None.
pub fn called<'a>(
    alloc: Global,
    function: Option<Function>,
    grouping: &Grouping,
    args: &[Expr],
    operand: Option<Samples<'a>>,
) -> Result<Option<Samples<'a>>, Memory>
    requires { IfSome operand IsAscending }
    ensures { (W : List Labels) (e : Tree) → IsStrictAnswer W e operand.entry → IfOk result (InOrder (StrictCall (option_map signature_of function) grouping.now (trees args.now) (λ place. StrictlyEvaluates W e))) }
{
    match function {
        Some(function) => effect(alloc, function.labels, grouping, args, operand),
        None => Ok(None),
    }
}

/// What a function or an aggregation with this effect gives of its operand.
fn effect<'a>(
    alloc: Global,
    effect: LabelEffect,
    grouping: &Grouping,
    args: &[Expr],
    operand: Option<Samples<'a>>,
) -> Result<Option<Samples<'a>>, Memory>
    requires { IfSome operand IsAscending }
    ensures { (W : List Labels) (e : Tree) → IsStrictAnswer W e operand.entry → IfOk result (InOrder (StrictEffect effect grouping.now (trees args.now) (StrictlyEvaluates W e))) }
{
    match effect {
        LabelEffect::Maps => operand_apart(alloc, &Nameless, operand),
        LabelEffect::Keeps => Ok(operand),
        LabelEffect::Groups => operand_together(alloc, &Grouped { grouping }, operand),
        LabelEffect::CountValues => count_values(alloc, grouping, args, operand),
        LabelEffect::Date => date(alloc, args, operand),
        LabelEffect::Absent => absent(alloc, args, &operand),
        LabelEffect::LabelReplace => replaced(alloc, args, &operand),
        LabelEffect::LabelJoin => operand_apart(alloc, &Joined { args }, operand),
        LabelEffect::HistogramQuantile => quantile(alloc, &operand),
        LabelEffect::Bare => Ok(Some(bare(alloc))),
    }
}

/// What `count_values` gives: each group with `1` as the text of the label that the first argument names.
fn count_values<'a>(
    alloc: Global,
    grouping: &Grouping,
    args: &[Expr],
    operand: Option<Samples<'a>>,
) -> Result<Option<Samples<'a>>, Memory>
    ensures { (W : List Labels) (e : Tree) → IsStrictAnswer W e operand.entry → IfOk result (InOrder (From (StrictlyEvaluates W e) (MadeTogether (IsCountedAsOne grouping.now (text_at (texts_of (trees args.now)) 0))))) }
{
    let label = Text::of(alloc, text_at(args, 0))?;
    operand_together(
        alloc,
        &CountedAsOne {
            grouping,
            label: &label,
        },
        operand,
    )
}

/// What a function of dates gives: without an argument it speaks of now.
fn date<'a>(
    alloc: Global,
    args: &[Expr],
    operand: Option<Samples<'a>>,
) -> Result<Option<Samples<'a>>, Memory>
    requires { IfSome operand IsAscending }
    ensures { (W : List Labels) (e : Tree) → IsStrictAnswer W e operand.entry → IfOk result (InOrder (StrictDate (trees args.now) (StrictlyEvaluates W e))) }
{
    match args {
        [] => Ok(Some(bare(alloc))),
        [_, ..] => operand_apart(alloc, &Nameless, operand),
    }
}
