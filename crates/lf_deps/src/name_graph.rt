//! Graphs of names.
ghost use Rattle.std.specs.Prelude.{◌≡◌, ◌<◌, ℕ, List, length, nat_lt, IfOk};
ghost use Rattle.std.specs.List.{Contains, filter};
ghost use Rattle.lf_ast.specs.Rules.{RuleTree};
ghost use Rattle.lf_deps.specs.views.Index.{IsIndex};
ghost use Rattle.lf_deps.specs.views.Names.{AreNumbersBy, BeginWith, IsGraphOf, IsGraphOfRules, IsNameGraphOf, edges_of, nodes_by};

use crate::links::{push_source, push_sources};
use crate::queue::numbers;
use crate::sources::Sources;
use lf_base::{Memory, Seq, Text};
use lf_classes::TextSet;
use lf_graph::Components;
use std::alloc::Global;
use std::marker::Model;

/// A graph of names, by its components. A name is a node, by its place, from which edges lead to what its rules select. All recorded names together are the node behind
/// these, from which an edge leads to each.
///
/// Who asks of all rules or names what they read makes it once.
#[derive(Drop)]
pub struct NameGraph {
    components: Components,
}

impl Model for NameGraph {
    ghost use Rattle.lf_graph.specs.Components.{Components};

    ghost Value = { Components };

    ghost view = { λ graph. graph.components };
}

impl NameGraph {
    /// That of the recorded names of an index. It takes about as long as the rules' selectors and the recorded names are many.
    pub fn of(alloc: Global, sources: &Sources) -> Result<NameGraph, Memory>
        requires { IsIndex sources.now }
        ensures { IfOk result (IsNameGraphOf sources.now) }
    {
        NameGraph::with_names(alloc, sources, sources.recorded())
    }

    /// That of the recorded names of an index and of others behind them. A selector of another name leads to none.
    pub fn with_names(
        alloc: Global,
        sources: &Sources,
        names: &TextSet,
    ) -> Result<NameGraph, Memory>
        requires index { IsIndex sources.now }
        requires names { BeginWith names.now sources.now.names }
        ensures { IfOk result (IsGraphOf names.now sources.now) }
    {
        let edges = edges_of(alloc, sources, names)?;
        let components = Components::of(alloc, &edges)?;
        Ok(NameGraph { components })
    }

    /// The places of the names that a selector reads, among the names of which the graph was made.
    pub fn read_by(
        &self,
        alloc: Global,
        names: &TextSet,
        selector: &Option<Text>,
    ) -> Result<Seq<usize>, Memory>
        requires { (rules : List RuleTree) × IsGraphOfRules rules names.now self.now }
        ensures { (rules : List RuleTree) → IsGraphOfRules rules names.now self.now → IfOk result (AreNumbersBy rules names.now selector.now) }
    {
        let mut start = Seq::new(alloc);
        push_source(names, selector, &mut start)?;
        let reached = self.components.reached(alloc, start.as_slice())?;
        below(alloc, reached.as_slice(), names.len())
    }

    /// Its components.
    pub(crate) fn components(&self) -> &Components
        ensures { result.now ≡ self.now }
    {
        &self.components
    }
}

/// For each node the nodes to which edges lead from it.
fn edges_of(alloc: Global, sources: &Sources, names: &TextSet) -> Result<Seq<Seq<usize>>, Memory>
    requires { IsIndex sources.now }
    ensures { IfOk result (λ edges. edges ≡ edges_of names.now sources.now) }
{
    let mut edges = Seq::with_capacity(alloc, names.len() + 1)?;
    for place in 0..names.len() {
        edges.push(nodes_by(alloc, sources, names, sources.makers_at(place))?)?;
    }
    edges.push(numbers(alloc, sources.recorded().len())?)?;
    Ok(edges)
}

/// The nodes of what the rules of these numbers select.
fn nodes_by(
    alloc: Global,
    sources: &Sources,
    names: &TextSet,
    makers: &[usize],
) -> Result<Seq<usize>, Memory>
    requires { (k : ℕ) → Contains makers.now k → k < length sources.now.selected }
    ensures { IfOk result (λ nodes. nodes ≡ nodes_by names.now sources.now makers.now) }
{
    let mut nodes = Seq::new(alloc);
    for maker in makers {
        push_sources(names, sources.selected_by(*maker), &mut nodes)?;
    }
    Ok(nodes)
}

/// Those of some numbers that are below one.
fn below(alloc: Global, numbers: &[usize], count: usize) -> Result<Seq<usize>, Memory>
    ensures { IfOk result (λ found. found ≡ filter (λ k. nat_lt k count) numbers.now) }
{
    let mut found = Seq::new(alloc);
    for number in numbers {
        if *number < count {
            found.push(*number)?;
        }
    }
    Ok(found)
}
