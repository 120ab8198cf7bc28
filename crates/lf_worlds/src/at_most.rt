//! How many selectors there are to try at most, told in one pass over the rules.
ghost use Rattle.std.specs.Prelude.{◌≡◌, ◌≤◌, ◌+◌, ◌-◌, ◌^◌, ℕ, List, length, map, min, IfOk};
ghost use Rattle.std.specs.List.{sum_by};
ghost use Rattle.lf_ast.specs.Rules.{RuleTree};
ghost use Rattle.lf_deps.specs.views.Index.{IsIndex};
ghost use Rattle.lf_deps.specs.views.Sources.{IsSourcesOf};
ghost use Rattle.lf_forks.specs.Selectors.{selector_total};
ghost use Rattle.lf_worlds.specs.Measure.{AreReaches, selectors_tried};
ghost use Rattle.lf_worlds.specs.views.AtMost.{most_at, most_by};

use lf_base::{Memory, Text};
use lf_deps::Sources;
use std::alloc::Global;

/// No less than the selectors of each rule and its reach, all together, by how many stand in each rule. Of a rule they are no more than its own, with those of each rule that it
/// selects and of the reaches of these, where a rule counts as often as it is met. Where a rule selects one that doesn't stand before it, or has a selector without a name, the
/// greatest `u64` is answered.
pub(crate) fn most_tried(alloc: Global, sources: &Sources, counts: &[u64]) -> Result<u64, Memory>
    requires sources { IsIndex sources.now }
    requires counts { length counts.now ≡ length sources.now.selected }
    ensures { (rules : List RuleTree) → IsSourcesOf rules sources.now → counts.now ≡ map (λ (r : RuleTree). selector_total r.expr) rules → (reach : ℕ → List ℕ) → AreReaches rules reach → IfOk result (λ most. min (selectors_tried rules reach) (2 ^ 64 - 1) ≤ most) }
{
    let mut each = Vec::with_capacity(alloc, counts.len())?;
    let mut all: u64 = 0;
    for rule in 0..counts.len() {
        let selected = sources.selected_by(rule);
        let most = counts[rule].saturating_add(most_by_all(sources, each.as_slice(), selected));
        each.push(most)?;
        all = all.saturating_add(most);
    }
    Ok(all)
}

/// At most the selectors of the rules that selectors select and of their reaches, by those of the first rules.
fn most_by_all(sources: &Sources, each: &[u64], selected: &[Option<Text>]) -> u64
    ensures { result ≡ min (sum_by (most_by sources.now each.now) selected.now) (2 ^ 64 - 1) }
{
    let mut all: u64 = 0;
    for selector in selected {
        all = all.saturating_add(most_by(sources, each, selector));
    }
    all
}

/// The same of one selector. Of one without a name it isn't told.
fn most_by(sources: &Sources, each: &[u64], selector: &Option<Text>) -> u64
    ensures { result ≡ most_by sources.now each.now selector.now }
{
    match selector {
        Some(name) => most_at_all(each, sources.makers_of(name.as_str())),
        None => u64::MAX,
    }
}

/// At most the selectors of the rules with these numbers and of their reaches, by those of the first rules.
fn most_at_all(each: &[u64], numbers: &[usize]) -> u64
    ensures { result ≡ min (sum_by (most_at each.now) numbers.now) (2 ^ 64 - 1) }
{
    let mut all: u64 = 0;
    for number in numbers {
        all = all.saturating_add(most_at(each, *number));
    }
    all
}

/// The same of one number. Of a rule that isn't one of the first it isn't told.
fn most_at(each: &[u64], number: usize) -> u64
    ensures { result ≡ most_at each.now number }
{
    if number < each.len() {
        each[number]
    } else {
        u64::MAX
    }
}
