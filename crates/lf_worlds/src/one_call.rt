//! What is known of the labels of one rule, by one call.
ghost use Rattle.std.specs.Prelude.{◌≡◌, ◌<◌, length, slice_get, IfOk, Some};
ghost use Rattle.lf_ast.specs.Rules.{RuleTree, rule_trees};
ghost use Rattle.lf_semantics.specs.Environments.{CoversRules, IsLeast};
ghost use Rattle.lf_semantics.specs.Laws.{SetNoNames};
ghost use Rattle.lf_trials.specs.Verdicts.{IsRuleVerdict};
ghost use Rattle.lf_worlds.specs.Unresolved.{AreTyped, IsOpenIfUnresolved};
ghost use Rattle.lf_worlds.specs.views.Readings.{AreReadingsOf};
ghost use Rattle.lf_worlds.specs.views.Told.{rule_verdict};

use crate::each_rule::Trials;
use crate::readings::Readings;
use crate::verdict::RuleKnowledge;
use lf_ast::Rule;
use lf_base::{Memory, Seq};
use lf_classes::Universe;
use lf_flow::Env;
use std::alloc::Global;

/// What is known of the labels of the rule with a number, counted from 0. Of rules as accepted files have them a label is unresolved only where a construct stands open, in
/// the rule's expression or in a rule that it reads. For many rules `Trials` are made once.
pub fn trials(
    alloc: Global,
    universe: &Universe,
    env: &Env,
    rules: &Seq<Rule>,
    i: u32,
) -> Result<RuleKnowledge, Memory>
    requires covers { CoversRules universe.now (rule_trees rules.now) }
    requires least { IsLeast universe.now (rule_trees rules.now) env.now }
    requires rule { i < length rules.now }
    ensures verdict { (r : RuleTree) → slice_get (rule_trees rules.now) i ≡ Some r → IfOk result (λ told. IsRuleVerdict universe.now env.now (rule_trees rules.now) i r (rule_verdict told)) }
    ensures unresolved { AreTyped (rule_trees rules.now) → SetNoNames (rule_trees rules.now) → IfOk result (λ told. IsOpenIfUnresolved (rule_trees rules.now) i (rule_verdict told)) }
{
    let readings = Readings::of(alloc, rules)?;
    tried(alloc, universe, env, rules, &readings, i)
}

/// The same, by what the rules read.
fn tried(
    alloc: Global,
    universe: &Universe,
    env: &Env,
    rules: &Seq<Rule>,
    readings: &Readings,
    i: u32,
) -> Result<RuleKnowledge, Memory>
    requires covers { CoversRules universe.now (rule_trees rules.now) }
    requires least { IsLeast universe.now (rule_trees rules.now) env.now }
    requires readings { AreReadingsOf (rule_trees rules.now) readings.now }
    requires rule { i < length rules.now }
    ensures verdict { (r : RuleTree) → slice_get (rule_trees rules.now) i ≡ Some r → IfOk result (λ told. IsRuleVerdict universe.now env.now (rule_trees rules.now) i r (rule_verdict told)) }
    ensures unresolved { AreTyped (rule_trees rules.now) → SetNoNames (rule_trees rules.now) → IfOk result (λ told. IsOpenIfUnresolved (rule_trees rules.now) i (rule_verdict told)) }
{
    let trials = Trials::new(alloc, universe, env, rules, readings)?;
    trials.rule(alloc, i)
}
