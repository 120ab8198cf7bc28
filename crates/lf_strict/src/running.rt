//! Runs of rules over series.
ghost use Rattle.std.specs.Prelude.{◌≡◌, ◌<◌, ℕ, IfOk, IfSome, List, Option, length};
ghost use Rattle.std.specs.List.{Contains};
ghost use Rattle.lf_ast.specs.Labels.{Labels};
ghost use Rattle.lf_ast.specs.Rules.{rule_trees};
ghost use Rattle.lf_ast.specs.Tree.{tree};
ghost use Rattle.lf_semantics.specs.Worlds.{AreScraped, World};
ghost use Rattle.lf_witness.specs.StrictRuns.{IsRunAnswer, IsStrictRun, rules_at};
ghost use Rattle.lf_strict.specs.Steps.{IsAnswerAfter};
ghost use Rattle.lf_strict.specs.views.Running.{IsStretch};

use crate::evaluating::evaluate;
use crate::stepping::step;
use crate::store::Store;
use lf_ast::{Expr, LabelSet, Rule};
use lf_base::{Memory, Seq};
use lf_classes::Universe;
use std::alloc::Global;

/// The samples that are stored after steps of rules over series, in ascending order of their pairs of a label and its text, or None where a step is. Each step names a rule by
/// its place, and sees what the steps before it stored. A step is None where its rule is a string or a range vector, where its expression is None, and where two samples that
/// it stores would be one. An alert stores nothing.
pub fn strict_run(
    alloc: Global,
    series: &Seq<LabelSet>,
    rules: &Seq<Rule>,
    steps: &Seq<u32>,
) -> Result<Option<Seq<LabelSet>>, Memory>
    requires { (k : ℕ) → Contains steps.now k → k < length rules.now }
    ensures answer { IfOk result (IsRunAnswer series.now (rules_at (rule_trees rules.now) steps.now)) }
    // No other answer is one.
    ensures only { (answer : Option (List Labels)) → IsRunAnswer series.now (rules_at (rule_trees rules.now) steps.now) answer → IfOk result (λ told. told ≡ answer) }
    // Over scraped series these samples are what a world has after a run whose steps give what the rules strictly give.
    ensures world { AreScraped (rule_trees rules.now) series.now → IfOk result (λ told. IfSome told (λ V. (world : World (rule_trees rules.now)) × (world.series ≡ series.now) × IsStrictRun series.now (rules_at (rule_trees rules.now) steps.now) V world.steps)) }
{
    let mut store = Store::of(alloc, None, series)?;
    if run_steps(alloc, &mut store, rules.as_slice(), steps.as_slice())? {
        let all = store.in_order(alloc)?.into_list(alloc)?;
        Ok(Some(all))
    } else {
        Ok(None)
    }
}

/// What an expression strictly gives over the samples that are stored after steps of rules over series, as `strict` tells it over what `strict_run` tells. It is None where a
/// step is, too. The stored samples are looked at where they are, and neither listed nor stored once more. A pattern that the universe has cached isn't read
/// for texts that are its classes.
pub fn strict_after(
    alloc: Global,
    universe: &Universe,
    series: &Seq<LabelSet>,
    rules: &Seq<Rule>,
    steps: &Seq<u32>,
    expr: &Expr,
) -> Result<Option<Seq<LabelSet>>, Memory>
    requires { (k : ℕ) → Contains steps.now k → k < length rules.now }
    ensures { IfOk result (IsAnswerAfter series.now (rules_at (rule_trees rules.now) steps.now) (tree expr.now)) }
{
    let mut store = Store::of(alloc, Some(universe), series)?;
    if run_steps(alloc, &mut store, rules.as_slice(), steps.as_slice())? {
        evaluate(alloc, &store, expr)
    } else {
        Ok(None)
    }
}

/// Adds what steps of rules store to the stored samples, up to the first that is None, and says whether none is.
fn run_steps(
    alloc: Global,
    store: &mut Store<'_>,
    rules: &[Rule],
    steps: &[u32],
) -> Result<bool, Memory>
    requires { (k : ℕ) → Contains steps.now k → k < length rules.now }
    ensures { IfOk result (IsStretch store.old (rules_at (rule_trees rules.now) steps.now) store.new) }
{
    for place in steps {
        if !step(alloc, store, &rules[*place as usize])? {
            return Ok(false);
        }
    }
    Ok(true)
}
