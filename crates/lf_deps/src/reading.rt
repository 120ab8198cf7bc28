//! Which rules and names are read.
ghost use Rattle.std.specs.Prelude.{◌≡◌, ◌<◌, ◌↔◌, ℕ, List, length, IfOk, IsTrue, Some, slice_get};
ghost use Rattle.std.specs.List.{Contains};
ghost use Rattle.lf_laws.specs.Ascending.{AreAscending};
ghost use Rattle.lf_ast.specs.Rules.{RuleTree, rule_trees};
ghost use Rattle.lf_ast.specs.Tree.{tree};
ghost use Rattle.lf_deps.specs.views.Index.{IsIndex};
ghost use Rattle.lf_deps.specs.views.Names.{IsNameGraphOf};
ghost use Rattle.lf_deps.specs.Reading.{AreApart, IsCyclic, Reaches};
ghost use Rattle.lf_deps.specs.views.Sources.{IsSourcesOf};

use crate::links::sources_of;
use crate::name_graph::NameGraph;
use crate::numbers::in_ascending_order;
use crate::reaching::{have_none_common, makers_at_all};
use crate::searching::names_read;
use crate::selecting::selectors;
use crate::sources::Sources;
use lf_ast::{Expr, Rule};
use lf_base::{Memory, Seq, Text};
use std::alloc::Global;

/// The numbers of the rules that record a name which rule `i` reads, directly or through others, in ascending order.
///
/// A number that doesn't fit a `u32` is answered as want of memory.
pub fn reach(alloc: Global, rules: &Seq<Rule>, i: u32) -> Result<Seq<u32>, Memory>
    requires { i < length rules.now }
    ensures members { (of : RuleTree) → slice_get (rule_trees rules.now) i ≡ Some of → (k : ℕ) → IfOk result (λ found. Contains found k ↔ ((r : RuleTree) × (slice_get (rule_trees rules.now) k ≡ Some r) × Reaches (rule_trees rules.now) of.expr r)) }
    ensures ascending { IfOk result AreAscending }
{
    let sources = Sources::of(alloc, rules)?;
    let graph = NameGraph::of(alloc, &sources)?;
    reach_of(alloc, &sources, &graph, i)
}

/// As `reach`, for the rules of an index, with the graph of its names and no pass over all rules.
pub fn reach_of(
    alloc: Global,
    sources: &Sources,
    graph: &NameGraph,
    i: u32,
) -> Result<Seq<u32>, Memory>
    requires index { IsIndex sources.now }
    requires graph { IsNameGraphOf sources.now graph.now }
    requires rule { i < length sources.now.selected }
    ensures members { (rules : List RuleTree) → IsSourcesOf rules sources.now → (of : RuleTree) → slice_get rules i ≡ Some of → (k : ℕ) → IfOk result (λ found. Contains found k ↔ ((r : RuleTree) × (slice_get rules k ≡ Some r) × Reaches rules of.expr r)) }
    ensures ascending { IfOk result AreAscending }
{
    let start = sources_of(alloc, sources.recorded(), sources.selected_by(i as usize))?;
    let reached = graph.components().reached(alloc, start.as_slice())?;
    let numbers = makers_at_all(alloc, sources, reached.as_slice())?;
    in_ascending_order(alloc, numbers)
}

/// Whether two expressions read no common name, directly or through the rules.
pub fn apart(alloc: Global, rules: &Seq<Rule>, left: &Expr, right: &Expr) -> Result<bool, Memory>
    ensures { IfOk result (λ apart. IsTrue apart ↔ AreApart (rule_trees rules.now) (tree left.now) (tree right.now)) }
{
    let sources = Sources::of(alloc, rules)?;
    apart_of(alloc, &sources, left, right)
}

/// As `apart`, for the rules of an index.
pub fn apart_of(alloc: Global, sources: &Sources, left: &Expr, right: &Expr) -> Result<bool, Memory>
    requires { IsIndex sources.now }
    ensures { IfOk result (λ apart. (rules : List RuleTree) → IsSourcesOf rules sources.now → IsTrue apart ↔ AreApart rules (tree left.now) (tree right.now)) }
{
    let of_left = selectors(alloc, left)?;
    let of_right = selectors(alloc, right)?;
    let read_left = names_read(alloc, sources, of_left.as_slice())?;
    let read_right = names_read(alloc, sources, of_right.as_slice())?;
    Ok(have_none_common(&read_left, &read_right))
}

/// Whether a name is read in its own making.
pub fn cyclic(alloc: Global, rules: &Seq<Rule>, name: &Text) -> Result<bool, Memory>
    ensures { IfOk result (λ cyclic. IsTrue cyclic ↔ IsCyclic (rule_trees rules.now) name.now) }
{
    let sources = Sources::of(alloc, rules)?;
    let graph = NameGraph::of(alloc, &sources)?;
    Ok(cyclic_of(&sources, &graph, name))
}

/// As `cyclic`, for the rules of an index, with the graph of its names. The name is looked up.
pub fn cyclic_of(sources: &Sources, graph: &NameGraph, name: &Text) -> bool
    requires index { IsIndex sources.now }
    requires graph { IsNameGraphOf sources.now graph.now }
    ensures { (rules : List RuleTree) → IsSourcesOf rules sources.now → IsTrue result ↔ IsCyclic rules name.now }
{
    let names = sources.recorded();
    let place = names.place(name.as_str());
    place < names.len() && graph.components().is_on_circle(place)
}
