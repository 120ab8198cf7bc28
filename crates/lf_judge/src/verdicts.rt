//! What is known of the labels of a rule, as a report tells it.
ghost use Rattle.std.specs.List.{list_any};
ghost use Rattle.std.specs.Prelude.{◌≡◌, true, map, IfOk};
ghost use Rattle.lf_ast.specs.Rules.{RuleTree};
ghost use Rattle.lf_worlds.specs.views.Told.{label_verdict, rule_verdict};
ghost use Rattle.lf_judge.specs.Judged.{has_unresolved, is_unresolved, unresolved_told, verdict_told, verdicts_told};

use crate::moving::taken_out;
use lf_ast::{RuleVerdicts, Verdict};
use lf_base::{Memory, Seq, Span};
use lf_open::OpenAt;
use lf_worlds::{LabelKnowledge, RuleKnowledge, ShownWorlds};
use std::alloc::Global;

/// Whether a label of the rule stays unresolved.
pub fn has_unresolved(known: &RuleKnowledge) -> bool
    ensures { result ≡ has_unresolved (rule_verdict known.now) }
{
    match known {
        RuleKnowledge::Empty => false,
        RuleKnowledge::Labels { of } => any_unresolved(of.as_slice()),
    }
}

/// Whether one of these verdicts is that nothing is known.
fn any_unresolved(known: &[LabelKnowledge]) -> bool
    ensures { result ≡ list_any (λ v. is_unresolved (label_verdict v)) known.now }
{
    known.iter().any(|verdict| is_unresolved(verdict))
}

/// Whether a verdict is that nothing is known.
fn is_unresolved(known: &LabelKnowledge) -> bool
    ensures { result ≡ is_unresolved (label_verdict known.now) }
{
    match known {
        LabelKnowledge::Unresolved => true,
        _ => false,
    }
}

/// Verdicts on the rule with a number, whose expression has this span, as a report tells them, by the first construct that stands open for it.
pub fn rule_told(
    alloc: Global,
    known: RuleKnowledge,
    first: Option<OpenAt>,
    number: u32,
    span: Span,
) -> Result<RuleVerdicts, Memory>
    ensures { (r : RuleTree) → r.expr_span ≡ span → IfOk result (λ told. told ≡ verdicts_told first number r (rule_verdict known)) }
{
    match known {
        RuleKnowledge::Empty => Ok(RuleVerdicts::Empty),
        RuleKnowledge::Labels { of } => {
            let of = each_told(alloc, of, first, number, span)?;
            Ok(RuleVerdicts::Labels { of })
        }
    }
}

/// The same of the verdicts on its labels. Their worlds aren't copied.
fn each_told(
    alloc: Global,
    known: Seq<LabelKnowledge>,
    first: Option<OpenAt>,
    number: u32,
    span: Span,
) -> Result<Seq<Verdict>, Memory>
    ensures { (r : RuleTree) → r.expr_span ≡ span → IfOk result (λ told. told ≡ map (λ v. verdict_told first number r (label_verdict v)) known) }
{
    let mut taken = taken_out(alloc, known)?;
    let mut told = Seq::with_capacity(alloc, taken.len())?;
    while let Some(verdict) = taken.pop() {
        told.push(label_told(verdict, first, number, span))?;
    }
    Ok(told)
}

/// The same of a verdict.
fn label_told(known: LabelKnowledge, first: Option<OpenAt>, number: u32, span: Span) -> Verdict
    ensures { (r : RuleTree) → r.expr_span ≡ span → result ≡ verdict_told first number r (label_verdict known) }
{
    match known {
        LabelKnowledge::Guaranteed => Verdict::Guaranteed,
        LabelKnowledge::Impossible => Verdict::Impossible,
        LabelKnowledge::Possible { shown } => {
            let ShownWorlds { with, without } = Box::into_inner(shown);
            Verdict::Possible { with, without }
        }
        LabelKnowledge::Unresolved => unresolved_told(first, number, span),
    }
}

/// The same where nothing is known: the first open construct is named, and the place where it stands.
fn unresolved_told(first: Option<OpenAt>, number: u32, span: Span) -> Verdict
    ensures { (r : RuleTree) → r.expr_span ≡ span → result ≡ unresolved_told first number r }
{
    match first {
        Some(held) => Verdict::Unresolved {
            construct: held.construct.number(),
            rule: held.rule,
            span: held.span,
        },
        None => Verdict::Unresolved {
            construct: 0,
            rule: number,
            span,
        },
    }
}
