//! What a tree is.

use lf_base::{Seq, Span};
use lf_scalar::Scalar;

/// A key of a mapping, and its value.
#[cycle(tree)]
#[derive(Debug, Drop)]
pub struct Entry {
    pub key: Scalar,
    pub value: Node,
}

/// A scalar, or a collection of nodes.
///
/// The span of a collection runs from its first character to the end of its closing bracket, or else of its last part, in bytes from the file's first.
#[cycle(tree)]
#[derive(Debug, Drop)]
pub enum Node {
    /// A scalar of any style; the empty text where a value is missing.
    Scalar { of: Scalar },
    /// A mapping, in the order of its keys, which have distinct texts.
    Map { entries: Seq<Entry>, span: Span },
    /// A sequence.
    List { items: Seq<Node>, span: Span },
}
