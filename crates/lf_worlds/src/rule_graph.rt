//! The graph of rules and of the names that they record.
ghost use Rattle.std.specs.Prelude.{◌≡◌, ◌<◌, ◌^◌, ◌++◌, length, map, IfOk, OnOk};
ghost use Rattle.std.specs.List.{flat_map, range_with_len};
ghost use Rattle.lf_deps.specs.views.Index.{makers_of};
ghost use Rattle.lf_worlds.specs.views.RuleGraph.{name_nodes, node_of, nodes_selected, rule_edges};

use lf_base::{Memory, Seq, Text};
use lf_classes::TextSet;
use lf_deps::Sources;
use std::alloc::Global;

/// Where edges lead from the nodes of the graph of rules. Each rule is a node, by its number; behind them stand the recorded names, by their places, and behind these the node
/// of all names. Edges lead from a rule to the names that it selects, and to the node of all names where it has a selector without a name, from a name to the rules
/// that record it, and from the node of all names to each name. So a rule leads to itself and to those of its reach, and to no other rule.
pub(crate) fn rule_edges(
    alloc: Global,
    sources: &Sources,
    rules: usize,
) -> Result<Seq<Seq<usize>>, Memory>
    requires rules { rules ≡ length sources.now.selected }
    requires small { rules < 2 ^ 63 }
    ensures { IfOk result (λ edges. edges ≡ rule_edges sources.now) }
{
    let mut edges = edges_of_rules(alloc, sources, rules)?;
    push_makers(alloc, sources, &mut edges)?;
    edges.push(name_nodes(alloc, rules, sources.recorded().len())?)?;
    Ok(edges)
}

/// The nodes to which edges lead from each rule.
fn edges_of_rules(alloc: Global, sources: &Sources, rules: usize) -> Result<Seq<Seq<usize>>, Memory>
    requires rules { rules ≡ length sources.now.selected }
    requires small { rules < 2 ^ 63 }
    ensures { IfOk result (λ edges. edges ≡ map (nodes_selected rules sources.now.names) sources.now.selected) }
{
    let mut edges = Seq::new(alloc);
    for rule in 0..rules {
        let selected = sources.selected_by(rule);
        edges.push(nodes_selected(alloc, sources.recorded(), selected, rules)?)?;
    }
    Ok(edges)
}

/// The nodes of what selectors select, where those of names stand from a number on.
fn nodes_selected(
    alloc: Global,
    names: &TextSet,
    selected: &[Option<Text>],
    first: usize,
) -> Result<Seq<usize>, Memory>
    requires { first < 2 ^ 63 }
    ensures { IfOk result (λ nodes. nodes ≡ nodes_selected first names.now selected.now) }
{
    let mut nodes = Seq::new(alloc);
    for selector in selected {
        push_node(names, selector, first, &mut nodes)?;
    }
    Ok(nodes)
}

/// Puts the node of what a selector selects behind others, if there is one.
fn push_node(
    names: &TextSet,
    selector: &Option<Text>,
    first: usize,
    nodes: &mut Seq<usize>,
) -> Result<(), Memory>
    requires { first < 2 ^ 63 }
    ensures { OnOk result (nodes.new ≡ nodes.old ++ node_of first names.now selector.now) }
{
    match selector {
        Some(name) => {
            let place = names.place(name.as_str());
            if place < names.len() {
                nodes.push(first + place)
            } else {
                Ok(())
            }
        }
        None => nodes.push(first + names.len()),
    }
}

/// Puts the rules that record each name behind others.
fn push_makers(alloc: Global, sources: &Sources, edges: &mut Seq<Seq<usize>>) -> Result<(), Memory>
    ensures { OnOk result (edges.new ≡ edges.old ++ map (makers_of sources.now) sources.now.names) }
{
    let names = sources.recorded();
    for place in 0..names.len() {
        let makers = sources.makers_of(names.get(place).as_str());
        edges.push(Seq::of(alloc, makers)?)?;
    }
    Ok(())
}

/// The nodes of names, which stand from a number on.
fn name_nodes(alloc: Global, first: usize, names: usize) -> Result<Seq<usize>, Memory>
    requires first { first < 2 ^ 63 }
    requires names { names < 2 ^ 63 }
    ensures { IfOk result (λ nodes. nodes ≡ name_nodes first names) }
{
    let mut nodes = Seq::new(alloc);
    for place in 0..names {
        nodes.push(first + place)?;
    }
    Ok(nodes)
}
