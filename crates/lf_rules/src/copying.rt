//! Rules of their own, as copies of those that stand in a tree.
ghost use Rattle.std.specs.Prelude.{◌≡◌, map, IfOk};
ghost use Rattle.lf_rules.specs.Sources as sources;

use crate::source::{Pair, PairInTree, RuleInTree, RuleSource};
use lf_base::{Memory, Seq};
use std::alloc::Global;

/// Copies of labels or annotations.
fn pairs_of(alloc: Global, pairs: &[PairInTree<'_>]) -> Result<Seq<Pair>, Memory>
    ensures { IfOk result (λ ps. map sources.setting ps ≡ map sources.setting_in pairs.now) }
{
    let mut copies = Seq::with_capacity(alloc, pairs.len())?;
    for pair in pairs {
        let key = pair.key.copy()?;
        let value = pair.value.copy()?;
        copies.push(Pair { key, value })?;
    }
    Ok(copies)
}

/// A copy of a rule.
fn rule_of(alloc: Global, rule: &RuleInTree<'_>) -> Result<RuleSource, Memory>
    ensures { IfOk result (λ r. sources.source r ≡ sources.source_in rule.now) }
{
    let name = rule.name.copy()?;
    let expr = rule.expr.copy()?;
    let labels = pairs_of(alloc, rule.labels.as_slice())?;
    let annotations = pairs_of(alloc, rule.annotations.as_slice())?;
    Ok(RuleSource {
        alert: rule.alert,
        name,
        expr,
        labels,
        annotations,
        group: rule.group,
    })
}

/// Copies of rules.
pub fn rules_of(alloc: Global, rules: &[RuleInTree<'_>]) -> Result<Seq<RuleSource>, Memory>
    ensures { IfOk result (λ rs. map sources.source rs ≡ map sources.source_in rules.now) }
{
    let mut copies = Seq::with_capacity(alloc, rules.len())?;
    for rule in rules {
        copies.push(rule_of(alloc, rule)?)?;
    }
    Ok(copies)
}
