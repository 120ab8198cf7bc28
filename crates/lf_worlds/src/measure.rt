//! How much there is to try with rules.
ghost use Rattle.std.specs.Prelude.{◌≡◌, ◌≤◌, ◌-◌, ◌^◌, ℕ, List, length, map, min, IfOk};
ghost use Rattle.lf_ast.specs.Rules.{RuleTree, rule_trees};
ghost use Rattle.lf_deps.specs.views.Index.{IsIndex};
ghost use Rattle.lf_deps.specs.views.Sources.{IsSourcesOf};
ghost use Rattle.lf_forks.specs.Selectors.{selector_total};
ghost use Rattle.lf_worlds.specs.Measure.{AreReaches, IsCountOver, IsLabelSelectors, selectors_tried};

use crate::at_most::most_tried;
use crate::rule_graph::rule_edges;
use lf_ast::Rule;
use lf_base::{Memory, Seq};
use lf_classes::Universe;
use lf_deps::Sources;
use lf_forks::all_selectors;
use lf_weights::weight_reached;
use std::alloc::Global;

/// The labels of the universe, `*` among them, times the selectors of each rule and its reach, a rule in its own reach counted once; or the greatest `u64`, where that is
/// greater. A number of a rule that doesn't fit a `u32` is answered like want of memory.
pub fn label_selectors(alloc: Global, universe: &Universe, rules: &Seq<Rule>) -> Result<u64, Memory>
    ensures { IfOk result (λ found. (n : ℕ) × IsLabelSelectors universe.now (rule_trees rules.now) n × (found ≡ min n (2 ^ 64 - 1))) }
{
    let sources = Sources::of(alloc, rules)?;
    label_selectors_by(alloc, universe, rules, &sources)
}

/// As `label_selectors`, by the index of the same rules, where that is more than some number, and None where it isn't. It is counted only where it can't be told in one pass over
/// the rules that it is no more.
pub fn label_selectors_over(
    alloc: Global,
    universe: &Universe,
    rules: &Seq<Rule>,
    sources: &Sources,
    most: u64,
) -> Result<Option<u64>, Memory>
    requires { IsSourcesOf (rule_trees rules.now) sources.now }
    ensures { IfOk result (IsCountOver universe.now (rule_trees rules.now) most) }
{
    let at_most = label_selectors_at_most(alloc, universe, rules, sources)?;
    if at_most <= most {
        return Ok(None);
    }
    let found = label_selectors_by(alloc, universe, rules, sources)?;
    if found > most {
        Ok(Some(found))
    } else {
        Ok(None)
    }
}

/// As `label_selectors`, by the index of the same rules.
fn label_selectors_by(
    alloc: Global,
    universe: &Universe,
    rules: &Seq<Rule>,
    sources: &Sources,
) -> Result<u64, Memory>
    requires { IsSourcesOf (rule_trees rules.now) sources.now }
    ensures { IfOk result (λ found. (n : ℕ) × IsLabelSelectors universe.now (rule_trees rules.now) n × (found ≡ min n (2 ^ 64 - 1))) }
{
    let counts = selector_counts(alloc, rules)?;
    let tried = selectors_tried(alloc, sources, counts.as_slice())?;
    let labels = universe.labels();
    Ok((labels as u64).saturating_mul(tried))
}

/// No less than `label_selectors_by`, and found in one pass over the rules. It is far more only where rules read others in many ways, and the greatest `u64` where a rule selects
/// one that doesn't stand before it, or has a selector without a name.
fn label_selectors_at_most(
    alloc: Global,
    universe: &Universe,
    rules: &Seq<Rule>,
    sources: &Sources,
) -> Result<u64, Memory>
    requires { IsSourcesOf (rule_trees rules.now) sources.now }
    ensures { IfOk result (λ most. (n : ℕ) × IsLabelSelectors universe.now (rule_trees rules.now) n × (min n (2 ^ 64 - 1) ≤ most)) }
{
    let counts = selector_counts(alloc, rules)?;
    let tried = most_tried(alloc, sources, counts.as_slice())?;
    let labels = universe.labels();
    Ok((labels as u64).saturating_mul(tried))
}

/// How many selectors stand in each rule.
fn selector_counts(alloc: Global, rules: &Seq<Rule>) -> Result<Vec<u64>, Memory>
    ensures { IfOk result (λ counts. counts.items ≡ map (λ (r : RuleTree). selector_total r.expr) (rule_trees rules.now)) }
{
    let mut counts = Vec::new(alloc);
    for k in 0..rules.len() {
        counts.push(all_selectors(alloc, &rules.get(k).expr)? as u64)?;
    }
    Ok(counts)
}

/// The selectors of each rule and its reach, all together, by how many stand in each rule.
fn selectors_tried(alloc: Global, sources: &Sources, counts: &[u64]) -> Result<u64, Memory>
    requires sources { IsIndex sources.now }
    requires counts { length counts.now ≡ length sources.now.selected }
    ensures { (rules : List RuleTree) → IsSourcesOf rules sources.now → counts.now ≡ map (λ (r : RuleTree). selector_total r.expr) rules → (reach : ℕ → List ℕ) → AreReaches rules reach → IfOk result (λ tried. tried ≡ min (selectors_tried rules reach) (2 ^ 64 - 1)) }
{
    let edges = rule_edges(alloc, sources, counts.len())?;
    weight_reached(alloc, &edges, counts)
}
