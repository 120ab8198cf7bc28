//! The call `trees`: the tree of a file, or its refusal, as JSON.

use crate::answer::refused;
use crate::case::TestCase;
use crate::lengths::ask_length;
use crate::scalars::write_scalar;
use crate::timing::Stopwatch;
use crate::writer::Writer;
use anyhow::Result;
use lf_yaml::{Node, read_tree};
use std::alloc::Global;
use std::time::Duration;

/// Writes what `read_tree` answers on the bytes of a case.
pub fn answer(alloc: Global, case: &TestCase, out: &mut Writer) -> Result<()> {
    let bytes = case.bytes();
    ask_length(bytes)?;
    match read_tree(alloc, bytes) {
        Ok(node) => write_node(out, &node),
        Err(refusal) => out.refusal(refusal),
    }
    Ok(())
}

/// The processor time of `read_tree` on a text.
pub fn time(rt: &HostRuntime, text: &str) -> Result<Duration> {
    let bytes = text.as_bytes();
    ask_length(bytes)?;
    let watch = Stopwatch::start(rt);
    let tree = read_tree(rt.alloc(), bytes);
    watch.taken(rt, tree.map_err(refused))
}

/// A node with its spans and offsets.
fn write_node(out: &mut Writer, node: &Node) {
    match node {
        Node::Scalar { of } => write_scalar(out, "scalar", of),
        Node::List { items, span } => {
            out.open("{");
            out.key("list");
            out.open("[");
            for item in items.as_slice() {
                write_node(out, item);
            }
            out.close("]");
            out.span_member(*span);
            out.close("}");
        }
        Node::Map { entries, span } => {
            out.open("{");
            out.key("map");
            out.open("[");
            for entry in entries.as_slice() {
                out.open("[");
                write_scalar(out, "scalar", &entry.key);
                write_node(out, &entry.value);
                out.close("]");
            }
            out.close("]");
            out.span_member(*span);
            out.close("}");
        }
    }
}
