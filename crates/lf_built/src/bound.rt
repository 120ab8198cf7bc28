//! How many selectors may be built.
ghost use Rattle.std.specs.Prelude.{◌≡◌, ◌*◌, eqb, cond, List, IfOk};
ghost use Rattle.lf_ast.specs.Rules.{RuleTree};
ghost use Rattle.lf_deps.specs.views.Sources.{IsSourcesOf};
ghost use Rattle.lf_trials.specs.Built.{selector_count};
ghost use Rattle.lf_trials.specs.Reached.{with_reach};
ghost use Rattle.lf_built.specs.views.Counts.{selected};

use lf_base::counts::sum;
use lf_base::{Memory, Seq};
use lf_deps::Sources;

/// Four times as many selectors as stand in a rule and its reach, outside scalars. Want of memory where that doesn't fit.
pub fn most_selectors(sources: &Sources, reach: &Seq<u32>, i: u32) -> Result<usize, Memory>
    ensures { (rules : List RuleTree) → IsSourcesOf rules sources.now → IfOk result (λ most. most ≡ 4 * selector_count rules (with_reach i reach.now)) }
{
    let mut count = selected(sources, i);
    for k in reach.as_slice() {
        count = sum(count, unless_same(i, *k, selected(sources, *k)))?;
    }
    four_times(count)
}

/// How many selectors stand in a rule, if there is one of the number.
fn selected(sources: &Sources, number: u32) -> usize
    ensures { (rules : List RuleTree) → IsSourcesOf rules sources.now → result ≡ selected rules number }
{
    let number = number as usize;
    if number < sources.rule_count() {
        sources.selected_by(number).len()
    } else {
        0
    }
}

/// The count, and none where both numbers are equal.
fn unless_same(i: u32, k: u32, count: usize) -> usize
    ensures { result ≡ cond (eqb i k) 0 count }
{
    if i == k { 0 } else { count }
}

/// Four times a count. Want of memory where it doesn't fit.
fn four_times(count: usize) -> Result<usize, Memory>
    ensures { IfOk result (λ times. times ≡ 4 * count) }
{
    match count.checked_mul(4) {
        Some(times) => Ok(times),
        None => Err(Memory),
    }
}
