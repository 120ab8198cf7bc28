//! The numbers of components.
ghost use Rattle.std.specs.Prelude.{◌≡◌, map, IfOk};
ghost use Rattle.lf_graph.specs.Components.{AreNumbers};
ghost use Rattle.lf_graph.specs.Paths.{IsGraph};
ghost use Rattle.lf_graph.specs.views.Search.{number_in};

use crate::search::{NodeState, Search};
use lf_base::{Memory, Seq};
use std::alloc::Global;

/// The number of each node's component, and how many components there are.
#[derive(Drop)]
pub(crate) struct Numbers {
    pub(crate) of: Vec<usize>,
    pub(crate) count: usize,
}

/// Numbers the components of a graph, so that an edge leads to a number that isn't greater. Each edge is followed once.
pub(crate) fn number_all(alloc: Global, edges: &Seq<Seq<usize>>) -> Result<Numbers, Memory>
    requires { IsGraph edges.now }
    ensures { IfOk result (λ numbers. AreNumbers edges.now numbers.of.items numbers.count) }
{
    let mut search = Search::new(alloc, edges)?;
    for node in 0..edges.len() {
        search.visit(edges, node)?;
    }
    let of = numbers_in(alloc, search.nodes.as_slice())?;
    Ok(Numbers {
        of,
        count: search.closed,
    })
}

/// The numbers of closed nodes.
fn numbers_in(alloc: Global, nodes: &[NodeState]) -> Result<Vec<usize>, Memory>
    ensures { IfOk result (λ numbers. numbers.items ≡ map number_in nodes.now) }
{
    let mut numbers = Vec::with_capacity(alloc, nodes.len())?;
    for node in nodes {
        numbers.push(number_in(node))?;
    }
    Ok(numbers)
}

/// The number of a closed node.
fn number_in(node: &NodeState) -> usize
    ensures { result ≡ number_in node.now }
{
    match node {
        NodeState::Closed(number) => *number,
        NodeState::Unmet => 0,
        NodeState::Open(_) => 0,
    }
}
