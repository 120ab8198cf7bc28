//! What rules read, as the trials of all rules share it.
ghost use Rattle.std.specs.Prelude.{IfOk};
ghost use Rattle.lf_ast.specs.Rules.{rule_trees};
ghost use Rattle.lf_worlds.specs.views.Readings.{AreReadingsOf};

use lf_ast::Rule;
use lf_base::{Memory, Seq};
use lf_deps::{NameGraph, Sources};
use lf_forks::Forks;
use std::alloc::Global;

/// What rules read: what each selects and which rules record each name, the graph of the recorded names, and which selectors are forks or are made by one.
///
/// Who makes trials of rules makes it once, and `Trials` borrow it.
#[derive(Drop)]
pub struct Readings {
    pub(crate) sources: Sources,
    pub(crate) graph: NameGraph,
    pub(crate) forks: Forks,
}

impl Readings {
    /// Those of rules. It takes about as long as the rules' expressions are long.
    pub fn of(alloc: Global, rules: &Seq<Rule>) -> Result<Readings, Memory>
        ensures { IfOk result (AreReadingsOf (rule_trees rules.now)) }
    {
        let sources = Sources::of(alloc, rules)?;
        let graph = NameGraph::of(alloc, &sources)?;
        let forks = Forks::of(alloc, rules, &sources)?;
        Ok(Readings {
            sources,
            graph,
            forks,
        })
    }
}
