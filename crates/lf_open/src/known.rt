//! What is known of rules when an expression is looked at.

use crate::read_graph::ReadGraph;
use lf_ast::Rule;
use lf_base::Seq;
use lf_deps::{NameGraph, Sources};
use lf_forks::{Forks, NameMarks};

/// What is known of rules: what they read, and which selectors read a fork, what can't be silent and what names `le`.
#[derive(Drop)]
pub(crate) struct RuleReadings<'a> {
    pub(crate) rules: &'a Seq<Rule>,
    pub(crate) sources: &'a Sources,
    pub(crate) graph: &'a NameGraph,
    pub(crate) reading: &'a ReadGraph,
    pub(crate) forks: &'a Forks,
    pub(crate) loud: &'a NameMarks,
    pub(crate) on_le: &'a NameMarks,
}
