//! Which rules pass a test, or read a rule that does.
ghost use Rattle.std.specs.Prelude.{◌≡◌, ◌<◌, Bool, false, length, List, IfOk, slice_index_or};
ghost use Rattle.std.specs.List.{list_any};
ghost use Rattle.lf_ast.specs.Rules.{RuleTree};
ghost use Rattle.lf_deps.specs.views.Index.{IsIndex};
ghost use Rattle.lf_deps.specs.views.Names.{IsNameGraphOf};
ghost use Rattle.lf_deps.specs.views.Sources.{IsSourcesOf};
ghost use Rattle.lf_open.specs.views.Choosing.{ArePassing, TellsRead};
ghost use Rattle.lf_open.specs.views.Marks.{AreChosenBy};

use lf_base::Memory;
use lf_base::choice::either;
use lf_deps::{NameGraph, Sources, reach_of, rule_number};
use std::alloc::Global;

/// For each rule whether it passes, or reads one that does, by whether each passes. It takes as long as the rules' reaches are.
pub(crate) fn chosen(
    alloc: Global,
    sources: &Sources,
    graph: &NameGraph,
    passing: &[bool],
) -> Result<Vec<bool>, Memory>
    requires index { IsIndex sources.now }
    requires graph { IsNameGraphOf sources.now graph.now }
    requires count { length passing.now ≡ length sources.now.selected }
    ensures count { IfOk result (λ found. length found.items ≡ length passing.now) }
    ensures chosen { IfOk result (λ found. (rules : List RuleTree) (of_rule : RuleTree → Bool) → IsSourcesOf rules sources.now → ArePassing rules of_rule passing.now → AreChosenBy rules of_rule found.items) }
{
    let mut found = Vec::new(alloc);
    for k in 0..passing.len() {
        let reads = reads_passing(alloc, sources, graph, passing, k)?;
        found.push(either(passing[k], reads))?;
    }
    Ok(found)
}

/// Whether the rule of a number reads one that passes.
fn reads_passing(
    alloc: Global,
    sources: &Sources,
    graph: &NameGraph,
    passing: &[bool],
    rule: usize,
) -> Result<bool, Memory>
    requires index { IsIndex sources.now }
    requires graph { IsNameGraphOf sources.now graph.now }
    requires rule { rule < length sources.now.selected }
    ensures { IfOk result (λ reads. (rules : List RuleTree) (of_rule : RuleTree → Bool) → IsSourcesOf rules sources.now → ArePassing rules of_rule passing.now → TellsRead rules of_rule rule reads) }
{
    let reach = reach_of(alloc, sources, graph, rule_number(rule)?)?;
    Ok(any_passing(passing, reach.as_slice()))
}

/// Whether one of the rules of some numbers passes.
fn any_passing(passing: &[bool], numbers: &[u32]) -> bool
    ensures { result ≡ list_any (λ k. slice_index_or passing.now k false) numbers.now }
{
    numbers.iter().any(|number| passes(passing, *number))
}

/// Whether the rule of a number passes.
fn passes(passing: &[bool], number: u32) -> bool
    ensures { result ≡ slice_index_or passing.now number false }
{
    let place = number as usize;
    place < passing.len() && passing[place]
}
