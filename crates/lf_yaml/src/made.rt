//! Nodes of collections, made of their parts.
ghost use Rattle.std.specs.Prelude.{◌≡◌, ◌≤◌, ◌^◌, map, Ok};
ghost use Rattle.lf_base.specs.Answers.{AnswersAs};
ghost use Rattle.lf_base.specs.Faults.{span as span_at};
ghost use Rattle.lf_scalar.specs.Scalars.{value as scalar_value};
ghost use Rattle.lf_yaml.specs.Tree.{tree, pair, sequence, mapping, items_of, entries_of};
ghost use Rattle.lf_yaml.specs.Spans.{span_of, items_end, entries_end, empty_at};

use crate::flow_value::missing_value;
use crate::node::{Entry, Node};
use lf_base::{Refusal, Seq, Span};
use lf_scalar::Scalar;
use std::alloc::Global;

/// The empty text at an offset, which stands for a value that is missing.
pub fn empty(alloc: Global, at: u32) -> Result<Node, Refusal>
    requires { at ≤ 2 ^ 31 }
    ensures { AnswersAs tree result (Ok (empty_at at)) }
{
    match missing_value(alloc, at) {
        Ok(of) => Ok(Node::Scalar { of }),
        Err(refusal) => Err(refusal),
    }
}

/// The end of a node's span.
pub fn end_of(node: &Node) -> u32
    ensures { result ≡ (span_of (tree node.now)).end }
{
    match node {
        Node::Scalar { of } => of.span.end,
        Node::Map { entries: _, span } => span.end,
        Node::List { items: _, span } => span.end,
    }
}

/// Where the last of some items ends, or an offset where there is none.
fn end_of_items(none: u32, items: &[Node]) -> u32
    ensures { result ≡ items_end none (items_of (map tree items.now)) }
{
    match items.last() {
        Some(item) => end_of(item),
        None => none,
    }
}

/// Where the last of some entries ends, or an offset where there is none.
fn end_of_entries(none: u32, entries: &[Entry]) -> u32
    ensures { result ≡ entries_end none (entries_of (map pair entries.now)) }
{
    match entries.last() {
        Some(entry) => end_of(&entry.value),
        None => none,
    }
}

/// A sequence.
pub fn sequence_node(items: Seq<Node>, span: Span) -> Node
    ensures { tree result ≡ sequence (items_of (map tree items)) span }
{
    Node::List { items, span }
}

/// A mapping.
pub fn mapping_node(entries: Seq<Entry>, span: Span) -> Node
    ensures { tree result ≡ mapping (entries_of (map pair entries)) span }
{
    Node::Map { entries, span }
}

/// A block sequence whose first item begins at an offset.
pub fn list_node(start: u32, items: Seq<Node>) -> Node
    ensures { tree result ≡ sequence (items_of (map tree items)) (span_at start (items_end start (items_of (map tree items)))) }
{
    let end = end_of_items(start, items.as_slice());
    let span = Span { start, end };
    sequence_node(items, span)
}

/// A block mapping whose first entry begins at an offset.
pub fn map_node(start: u32, entries: Seq<Entry>) -> Node
    ensures { tree result ≡ mapping (entries_of (map pair entries)) (span_at start (entries_end start (entries_of (map pair entries)))) }
{
    let end = end_of_entries(start, entries.as_slice());
    let span = Span { start, end };
    mapping_node(entries, span)
}

/// An entry of a key and its value.
pub fn entry_node(key: Scalar, value: Node) -> Entry
    ensures { pair result ≡ (scalar_value key, tree value) }
{
    Entry { key, value }
}
