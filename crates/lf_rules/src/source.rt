//! What a rule of a file says, before its expression is read.

use lf_base::Seq;
use lf_scalar::Scalar;

/// A label or an annotation that a rule sets.
#[derive(Debug, Drop)]
pub struct Pair {
    /// Its name.
    pub key: Scalar,
    /// Its text.
    pub value: Scalar,
}

/// A rule as it stands in a file.
#[derive(Debug, Drop)]
pub struct RuleSource {
    /// Whether it is an alerting rule; else it is a recording rule.
    pub alert: bool,
    /// The text of `alert` or `record`.
    pub name: Scalar,
    /// The text of `expr`.
    pub expr: Scalar,
    /// The labels that the rule sets, in their order.
    pub labels: Seq<Pair>,
    /// The annotations of an alerting rule, in their order.
    pub annotations: Seq<Pair>,
    /// The number of the rule's group in the file, from 0.
    pub group: u32,
}

/// A label or an annotation as it stands in a file's tree.
#[derive(Clone, Copy, Drop)]
pub struct PairInTree<'a> {
    /// Its name.
    pub key: &'a Scalar,
    /// Its text.
    pub value: &'a Scalar,
}

/// A rule as it stands in a file's tree, of which nothing is copied.
#[derive(Drop)]
pub struct RuleInTree<'a> {
    /// Whether it is an alerting rule; else it is a recording rule.
    pub alert: bool,
    /// The text of `alert` or `record`.
    pub name: &'a Scalar,
    /// The text of `expr`.
    pub expr: &'a Scalar,
    /// The labels that the rule sets, in their order.
    pub labels: Seq<PairInTree<'a>>,
    /// The annotations of an alerting rule, in their order.
    pub annotations: Seq<PairInTree<'a>>,
    /// The number of the rule's group in the file, from 0.
    pub group: u32,
}
