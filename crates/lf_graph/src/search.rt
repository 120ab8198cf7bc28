//! A search along the edges of a graph.
ghost use Rattle.std.specs.Prelude.{◌≡◌, ◌≤◌, ◌<◌, ◌+◌, ◌-◌, ◌++◌, ◌↔◌, ℕ, true, false, [], ◌∷◌, length, slice_index_or, slice_set, drop, take, IfOk, IfNone, IfSome, OnOk};
ghost use Rattle.std.specs.List.{Contains};
ghost use Rattle.lf_graph.specs.Paths.{IsGraph};
ghost use Rattle.lf_laws.specs.Ascending.{AreAscending};
ghost use Rattle.lf_graph.specs.views.Search.{AllLead, IsClosing, IsMet, IsSearch, NoneDue, TakesDue, edges_from, from_at, state_of, work};
ghost use Rattle.lf_graph.specs.declared.search.NodeState.TheVariants.{Unmet};

use crate::counting::one_more;
use lf_base::{Memory, Seq};
use std::alloc::Global;

/// What is known of a node.
#[derive(Clone, Copy)]
pub(crate) enum NodeState {
    /// It isn't met yet.
    Unmet,
    /// It stands at this place among the open nodes.
    Open(usize),
    /// It is in the component of this number.
    Closed(usize),
}

/// An edge from the open node at a place.
#[derive(Clone, Copy)]
pub(crate) struct Edge {
    /// The place.
    pub(crate) from: usize,
    /// The node to which it leads.
    pub(crate) to: usize,
}

/// What a search along edges has met.
///
/// The open nodes stand in the order in which they were met, in parts: the nodes of a part lead to one another and to the nodes of later parts. Where an edge leads back
/// to an earlier part, the parts from that one on become one. Once no edge of the last part is due, its nodes are a component, and they are closed. This is the
/// path-based search for strongly connected components.
#[derive(Drop)]
pub(crate) struct Search {
    /// What is known of each node.
    pub(crate) nodes: Vec<NodeState>,
    /// The open nodes.
    pub(crate) open: Vec<usize>,
    /// The place at which each part begins.
    pub(crate) parts: Vec<usize>,
    /// The edges from open nodes that aren't followed yet, those of later nodes behind those of earlier ones.
    pub(crate) due: Vec<Edge>,
    /// How many components are closed.
    pub(crate) closed: usize,
}

impl Search {
    /// One that has met no node yet.
    pub(crate) fn new(alloc: Global, edges: &Seq<Seq<usize>>) -> Result<Search, Memory>
        ensures search { IfOk result (λ search. IsSearch edges.now search []) }
        ensures parts { IfOk result (λ search. search.parts.items ≡ []) }
    {
        let nodes = vec![in alloc; NodeState::Unmet; edges.len()]?;
        Ok(Search {
            nodes,
            open: Vec::new(alloc),
            parts: Vec::new(alloc),
            due: Vec::new(alloc),
            closed: 0,
        })
    }

    /// Meets a node and all to which it leads, and closes their components.
    pub(crate) fn visit(&mut self, edges: &Seq<Seq<usize>>, node: usize) -> Result<(), Memory>
        requires graph { IsGraph edges.now }
        requires node { node < length edges.now }
        requires search { IsSearch edges.now self.old [] }
        requires parts { self.old.parts.items ≡ [] }
        ensures search { OnOk result (IsSearch edges.now self.new []) }
        ensures parts { OnOk result (self.new.parts.items ≡ []) }
        ensures met { OnOk result (IsMet self.new node) }
        ensures kept { OnOk result ((u : ℕ) → IsMet self.old u → IsMet self.new u) }
    {
        if self.is_met(node) {
            return Ok(());
        }
        self.meet(edges, node)?;
        while self.parts.len() > 0 {
            self.step(edges)?;
        }
        Ok(())
    }

    /// Whether a node is met.
    fn is_met(&self, node: usize) -> bool
        requires { node < length self.now.nodes.items }
        ensures met { result ≡ true → IsMet self.now node }
        ensures unmet { result ≡ false → state_of self.now node ≡ Unmet }
    {
        match self.nodes[node] {
            NodeState::Unmet => false,
            NodeState::Open(_) => true,
            NodeState::Closed(_) => true,
        }
    }

    /// Follows an edge of the last part, or closes the part where none is due.
    fn step(&mut self, edges: &Seq<Seq<usize>>) -> Result<(), Memory>
        requires graph { IsGraph edges.now }
        requires search { IsSearch edges.now self.old [] }
        requires parts { 0 < length self.old.parts.items }
        ensures search { OnOk result (IsSearch edges.now self.new []) }
        ensures less { OnOk result (work edges.now self.new < work edges.now self.old) }
        ensures kept { OnOk result ((u : ℕ) → IsMet self.old u → IsMet self.new u) }
    {
        match self.take_due() {
            Some(node) => self.follow(edges, node),
            None => self.close(edges),
        }
    }

    /// Takes out the last edge that is due, if it is one of the last part, and tells the node to which it leads.
    fn take_due(&mut self) -> Option<usize>
        requires { 0 < length self.old.parts.items }
        ensures none { IfNone result ((self.new ≡ self.old) × NoneDue self.old) }
        ensures some { IfSome result (TakesDue self.old self.new) }
    {
        let begin = self.parts[self.parts.len() - 1];
        if is_none_from(self.due.as_slice(), begin) {
            return None;
        }
        match self.due.pop() {
            Some(edge) => Some(edge.to),
            None => None,
        }
    }

    /// Goes on to a node to which the open nodes lead.
    fn follow(&mut self, edges: &Seq<Seq<usize>>, node: usize) -> Result<(), Memory>
        requires graph { IsGraph edges.now }
        requires node { node < length edges.now }
        requires search { IsSearch edges.now self.old (node ∷ []) }
        requires leads { AllLead edges.now self.old node }
        ensures search { OnOk result (IsSearch edges.now self.new []) }
        ensures work { OnOk result (work edges.now self.new ≤ work edges.now self.old) }
        ensures kept { OnOk result ((u : ℕ) → IsMet self.old u → IsMet self.new u) }
    {
        match self.nodes[node] {
            NodeState::Unmet => self.meet(edges, node),
            NodeState::Open(place) => {
                join(&mut self.parts, place);
                Ok(())
            }
            NodeState::Closed(_) => Ok(()),
        }
    }

    /// Meets a node to which the open nodes lead: it is open, a part by itself, and its edges are due.
    fn meet(&mut self, edges: &Seq<Seq<usize>>, node: usize) -> Result<(), Memory>
        requires node { node < length edges.now }
        requires search { IsSearch edges.now self.old (node ∷ []) }
        requires leads { AllLead edges.now self.old node }
        requires unmet { state_of self.old node ≡ Unmet }
        ensures search { OnOk result (IsSearch edges.now self.new []) }
        ensures work { OnOk result (work edges.now self.new < work edges.now self.old) }
        ensures met { OnOk result (IsMet self.new node) }
        ensures kept { OnOk result ((u : ℕ) → IsMet self.old u → IsMet self.new u) }
    {
        let place = self.open.as_slice().len();
        put(&mut self.nodes, node, NodeState::Open(place));
        self.open.push(node)?;
        self.parts.push(place)?;
        push_edges(&mut self.due, place, edges.get(node).as_slice())?;
        Ok(())
    }

    /// Closes the last part, of which no edge is due.
    fn close(&mut self, edges: &Seq<Seq<usize>>) -> Result<(), Memory>
        requires search { IsSearch edges.now self.old [] }
        requires parts { 0 < length self.old.parts.items }
        requires none { NoneDue self.old }
        ensures search { OnOk result (IsSearch edges.now self.new []) }
        ensures less { OnOk result (work edges.now self.new < work edges.now self.old) }
        ensures kept { OnOk result ((u : ℕ) → IsMet self.old u → IsMet self.new u) }
    {
        let number = self.closed;
        self.closed = one_more(number)?;
        if let Some(begin) = take_last(&mut self.parts) {
            close_all(
                &mut self.nodes,
                from_place(self.open.as_slice(), begin),
                number,
            );
            self.open.truncate(begin);
        }
        Ok(())
    }
}

/// Whether the last edge, if there is one, is from a place before one.
fn is_none_from(due: &[Edge], begin: usize) -> bool
    ensures none { result ≡ true → 0 < length due.now → from_at due.now (length due.now - 1) < begin }
    ensures some { result ≡ false → (0 < length due.now) × (begin ≤ from_at due.now (length due.now - 1)) }
{
    match due.last() {
        Some(edge) => edge.from < begin,
        None => true,
    }
}

/// Makes one part of all from that of a place on.
fn join(parts: &mut Vec<usize>, place: usize)
    requires { AreAscending parts.old.items }
    ensures rise { AreAscending parts.new.items }
    ensures kept { (b : ℕ) → Contains parts.new.items b ↔ (Contains parts.old.items b × (b ≤ place)) }
    ensures fewer { length parts.new.items ≤ length parts.old.items }
{
    while is_last_behind(parts.as_slice(), place) {
        let _ = parts.pop();
    }
}

/// Whether the last place, if there is one, is behind a place.
fn is_last_behind(parts: &[usize], place: usize) -> bool
    ensures behind { result ≡ true → (0 < length parts.now) × (place < slice_index_or parts.now (length parts.now - 1) 0) }
    ensures not { result ≡ false → 0 < length parts.now → slice_index_or parts.now (length parts.now - 1) 0 ≤ place }
{
    match parts.last() {
        Some(last) => *last > place,
        None => false,
    }
}

/// Puts the edges from a place behind others.
fn push_edges(due: &mut Vec<Edge>, from: usize, nodes: &[usize]) -> Result<(), Memory>
    ensures { OnOk result (due.new.items ≡ due.old.items ++ edges_from from nodes.now) }
{
    for node in nodes {
        due.push(Edge { from, to: *node })?;
    }
    Ok(())
}

/// Takes out the last place, if there is one.
fn take_last(places: &mut Vec<usize>) -> Option<usize>
    ensures none { IfNone result (places.old.items ≡ []) }
    ensures some { IfSome result (λ last. (last ≡ slice_index_or places.old.items (length places.old.items - 1) 0) × (places.new.items ≡ take (length places.old.items - 1) places.old.items)) }
{
    places.pop()
}

/// The nodes from a place on.
fn from_place(nodes: &[usize], place: usize) -> &[usize]
    requires { place ≤ length nodes.now }
    ensures { result.now ≡ drop place nodes.now }
{
    &nodes[place..]
}

/// Closes nodes as a component of a number.
fn close_all(nodes: &mut Vec<NodeState>, members: &[usize], number: usize)
    requires { (u : ℕ) → Contains members.now u → u < length nodes.old.items }
    ensures { IsClosing number members.now nodes.old.items nodes.new.items }
{
    for member in members {
        put(nodes, *member, NodeState::Closed(number));
    }
}

/// Writes what is known of a node.
fn put(nodes: &mut Vec<NodeState>, node: usize, known: NodeState)
    requires { node < length nodes.old.items }
    ensures { nodes.new.items ≡ slice_set nodes.old.items node known }
{
    nodes[node] = known;
}
