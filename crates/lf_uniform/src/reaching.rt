//! The rules that are evaluated in a uniform world, and whether one of them selects a name that is read in its own making.
ghost use Rattle.std.specs.Prelude.{◌≡◌, ◌<◌, ℕ, List, IfOk, false, length, nat_lt, true};
ghost use Rattle.std.specs.List.{Contains, filter};
ghost use Rattle.lf_ast.specs.Rules.{RuleTree};
ghost use Rattle.lf_deps.specs.views.Index.{IsIndex};
ghost use Rattle.lf_deps.specs.views.Names.{IsNameGraphOf};
ghost use Rattle.lf_deps.specs.views.Sources.{IsSourcesOf};
ghost use Rattle.lf_trials.specs.Reached.{with_reach};
ghost use Rattle.lf_trials.specs.Uniform.{SelectsCyclic, passes_over};
ghost use Rattle.lf_uniform.specs.views.Ways.{IsCyclicIn, IsCyclicName, IsUncyclic};

use lf_base::{Memory, Seq, Text};
use lf_deps::{NameGraph, Sources, cyclic_of};
use std::alloc::Global;

/// How often the rules in reach are evaluated at most.
const MOST_PASSES: usize = 8;

/// A rule and its reach, in ascending order, the rule once.
pub fn with_reach(alloc: Global, number: u32, reach: &[u32]) -> Result<Vec<u32>, Memory>
    ensures { IfOk result (λ numbers. numbers.items ≡ with_reach number reach.now) }
{
    let mut numbers = below(alloc, number, reach)?;
    let mut behind = above(alloc, number, reach)?;
    numbers.push(number)?;
    numbers.append(&mut behind)?;
    Ok(numbers)
}

/// Those below a number.
fn below(alloc: Global, number: u32, numbers: &[u32]) -> Result<Vec<u32>, Memory>
    ensures { IfOk result (λ found. found.items ≡ filter (λ k. nat_lt k number) numbers.now) }
{
    let found = numbers
        .iter()
        .copied()
        .filter(|k| *k < number)
        .collect(alloc)?;
    Ok(found)
}

/// Those above a number.
fn above(alloc: Global, number: u32, numbers: &[u32]) -> Result<Vec<u32>, Memory>
    ensures { IfOk result (λ found. found.items ≡ filter (λ k. nat_lt number k) numbers.now) }
{
    let found = numbers
        .iter()
        .copied()
        .filter(|k| *k > number)
        .collect(alloc)?;
    Ok(found)
}

/// The rules in reach, in as many passes as there are of them, and in 8 at most.
pub fn passes_over(alloc: Global, reach: &[u32]) -> Result<Seq<u32>, Memory>
    ensures { IfOk result (λ steps. steps ≡ passes_over reach.now) }
{
    let mut steps = Vec::new(alloc);
    for _pass in 0..reach.len().min(MOST_PASSES) {
        steps.extend_from_slice(reach)?;
    }
    Ok(Seq::from_vec(steps))
}

/// Whether one of these rules selects, by its name, a name that is read in its own making.
pub fn selects_cyclic(sources: &Sources, graph: &NameGraph, numbers: &[u32]) -> bool
    requires index { IsIndex sources.now }
    requires graph { IsNameGraphOf sources.now graph.now }
    requires numbers { (k : ℕ) → Contains numbers.now k → k < length sources.now.selected }
    ensures cyclic { result ≡ true → (rules : List RuleTree) → IsSourcesOf rules sources.now → SelectsCyclic rules numbers.now }
    ensures none { result ≡ false → (rules : List RuleTree) → IsSourcesOf rules sources.now → IsUncyclic rules numbers.now }
{
    for number in numbers {
        if has_cyclic(sources, graph, sources.selected_by(*number as usize)) {
            return true;
        }
    }
    false
}

/// Whether one of these selectors says a name that is read in its own making.
fn has_cyclic(sources: &Sources, graph: &NameGraph, selected: &[Option<Text>]) -> bool
    requires index { IsIndex sources.now }
    requires graph { IsNameGraphOf sources.now graph.now }
    ensures cyclic { result ≡ true → (rules : List RuleTree) → IsSourcesOf rules sources.now → IsCyclicIn rules selected.now }
    ensures none { result ≡ false → (rules : List RuleTree) → IsSourcesOf rules sources.now → IsCyclicIn rules selected.now → ⊥ }
{
    for name in selected {
        if is_cyclic(sources, graph, name) {
            return true;
        }
    }
    false
}

/// Whether a selector says a name that is read in its own making.
fn is_cyclic(sources: &Sources, graph: &NameGraph, name: &Option<Text>) -> bool
    requires index { IsIndex sources.now }
    requires graph { IsNameGraphOf sources.now graph.now }
    ensures cyclic { result ≡ true → (rules : List RuleTree) → IsSourcesOf rules sources.now → IsCyclicName rules name.now }
    ensures none { result ≡ false → (rules : List RuleTree) → IsSourcesOf rules sources.now → IsCyclicName rules name.now → ⊥ }
{
    match name {
        Some(name) => cyclic_of(sources, graph, name),
        None => false,
    }
}
