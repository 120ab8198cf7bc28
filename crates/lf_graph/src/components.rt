//! The strongly connected components of a graph.
ghost use Rattle.std.specs.Prelude.{◌≡◌, ◌<◌, ◌↔◌, [], ℕ, List, length, map, replicate, slice_index_or, IfOk, IsTrue, OnOk};
ghost use Rattle.std.specs.List.{Contains};
ghost use Rattle.lf_laws.specs.Ascending.{AreAscending};
ghost use Rattle.lf_graph.specs.Components.{AreComponents, AreNumbers, number_of};
ghost use Rattle.lf_graph.specs.views.Listing.{Adds, AddsBelow, AreMembers, AreNexts, numbers_of};
ghost use Rattle.lf_graph.specs.Paths.{IsGraph, IsOnCircle, IsReached};

use crate::buckets::Buckets;
use crate::numbering::number_all;
use crate::ordered::in_order;
use lf_base::{Memory, Seq};
use std::alloc::Global;
use std::collections::BTreeSet;
use std::marker::Model;

/// The strongly connected components of a graph: nodes of which each leads to each other, along edges. They are numbered from 0, so that an edge leads to the component of
/// its node, or to one of a lesser number.
#[derive(Drop)]
pub struct Components {
    /// The number of each node's component.
    numbers: Vec<usize>,
    /// The nodes of each component.
    members: Buckets,
    /// The components to which an edge leads from a node of each, perhaps its own.
    nexts: Vec<BTreeSet<usize>>,
}

impl Model for Components {
    ghost use Rattle.std.specs.Prelude.{map};
    ghost use Rattle.lf_graph.specs.Components.{Components};

    ghost Value = { Components };

    ghost view = { λ c. record { numbers = c.numbers.items; members = c.members; nexts = map (λ t. t.keys) c.nexts.items } };
}

impl Components {
    /// Those of a graph that has for each node, counted from 0, the nodes to which an edge leads from it. It takes about as long as the nodes and edges are many.
    pub fn of(alloc: Global, edges: &Seq<Seq<usize>>) -> Result<Components, Memory>
        requires { IsGraph edges.now }
        ensures { IfOk result (AreComponents edges.now) }
    {
        let numbers = number_all(alloc, edges)?;
        let members = list_members(alloc, numbers.of.as_slice(), numbers.count)?;
        let nexts = list_nexts(alloc, edges, numbers.of.as_slice(), numbers.count)?;
        Ok(Components {
            numbers: numbers.of,
            members,
            nexts,
        })
    }

    /// How many there are.
    pub fn count(&self) -> usize
        ensures { result ≡ length self.now.members }
    {
        self.members.len()
    }

    /// The number of each node's component.
    pub fn numbers(&self) -> &[usize]
        ensures { result.now ≡ self.now.numbers }
    {
        self.numbers.as_slice()
    }

    /// The components to which an edge leads from a node of one, perhaps its own.
    pub fn nexts(&self, number: usize) -> &BTreeSet<usize>
        requires { number < length self.now.nexts }
        ensures { result.now.keys ≡ slice_index_or self.now.nexts number [] }
    {
        &self.nexts[number]
    }

    /// Whether an edge or more lead from a node to itself.
    pub fn is_on_circle(&self, node: usize) -> bool
        requires graph { (edges : List (List ℕ)) × AreComponents edges self.now }
        requires node { node < length self.now.numbers }
        ensures { (edges : List (List ℕ)) → AreComponents edges self.now → IsTrue result ↔ IsOnCircle edges node }
    {
        let number = self.numbers[node];
        self.nexts[number].contains(&number)
    }

    /// The nodes to which edges, perhaps none, lead from one of these, in ascending order. Each component is gone through once.
    pub fn reached(&self, alloc: Global, start: &[usize]) -> Result<Seq<usize>, Memory>
        requires graph { (edges : List (List ℕ)) × AreComponents edges self.now }
        requires start { (u : ℕ) → Contains start.now u → u < length self.now.numbers }
        ensures members { IfOk result (λ found. (edges : List (List ℕ)) → AreComponents edges self.now → (v : ℕ) → Contains found v ↔ IsReached edges start.now v) }
        ensures ascending { IfOk result AreAscending }
    {
        let mut found = Vec::new(alloc);
        let mut due = self.components_of(alloc, start)?;
        while let Some(number) = due.pop_last() {
            add_all(&mut found, self.members.at(number))?;
            add_below(&mut due, &self.nexts[number], number)?;
        }
        in_order(alloc, found)
    }

    /// The components of nodes.
    fn components_of(&self, alloc: Global, nodes: &[usize]) -> Result<BTreeSet<usize>, Memory>
        requires { (u : ℕ) → Contains nodes.now u → u < length self.now.numbers }
        ensures { IfOk result (λ found. Adds (numbers_of self.now.numbers nodes.now) [] found.keys) }
    {
        let mut found = BTreeSet::new(alloc);
        add_numbers(&mut found, self.numbers.as_slice(), nodes)?;
        Ok(found)
    }
}

/// The nodes of each component.
fn list_members(alloc: Global, numbers: &[usize], count: usize) -> Result<Buckets, Memory>
    requires { (u : ℕ) → u < length numbers.now → number_of numbers.now u < count }
    ensures { IfOk result (λ members. AreMembers numbers.now (length numbers.now) count members) }
{
    let mut members = Buckets::empty(alloc, count)?;
    for (node, number) in numbers.iter().enumerate() {
        members.push(*number, node)?;
    }
    Ok(members)
}

/// The components to which an edge leads from a node of each.
fn list_nexts(
    alloc: Global,
    edges: &Seq<Seq<usize>>,
    numbers: &[usize],
    count: usize,
) -> Result<Vec<BTreeSet<usize>>, Memory>
    requires graph { IsGraph edges.now }
    requires numbers { AreNumbers edges.now numbers.now count }
    ensures { IfOk result (λ nexts. AreNexts edges.now numbers.now (length edges.now) count (map (λ t. t.keys) nexts.items)) }
{
    let mut nexts = empty_sets(alloc, count)?;
    for node in 0..edges.len() {
        add_numbers(
            &mut nexts[numbers[node]],
            numbers,
            edges.get(node).as_slice(),
        )?;
    }
    Ok(nexts)
}

/// Empty sets.
fn empty_sets(alloc: Global, count: usize) -> Result<Vec<BTreeSet<usize>>, Memory>
    ensures { IfOk result (λ sets. map (λ t. t.keys) sets.items ≡ replicate count []) }
{
    let mut sets = Vec::with_capacity(alloc, count)?;
    for _k in 0..count {
        sets.push(BTreeSet::new(alloc))?;
    }
    Ok(sets)
}

/// Adds the numbers of nodes.
fn add_numbers(
    found: &mut BTreeSet<usize>,
    numbers: &[usize],
    nodes: &[usize],
) -> Result<(), Memory>
    requires { (u : ℕ) → Contains nodes.now u → u < length numbers.now }
    ensures { OnOk result (Adds (numbers_of numbers.now nodes.now) found.old.keys found.new.keys) }
{
    for node in nodes {
        let _ = found.insert(numbers[*node])?;
    }
    Ok(())
}

/// Adds nodes.
fn add_all(found: &mut Vec<usize>, nodes: &[usize]) -> Result<(), Memory>
    ensures { OnOk result (Adds nodes.now found.old.items found.new.items) }
{
    found.extend_from_slice(nodes)?;
    Ok(())
}

/// Adds those of the components that come before one.
fn add_below(
    due: &mut BTreeSet<usize>,
    nexts: &BTreeSet<usize>,
    number: usize,
) -> Result<(), Memory>
    ensures { OnOk result (AddsBelow nexts.now.keys number due.old.keys due.new.keys) }
{
    for next in nexts {
        if *next < number {
            let _ = due.insert(*next)?;
        }
    }
    Ok(())
}
