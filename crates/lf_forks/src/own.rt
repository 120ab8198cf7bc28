//! Forks in the rules' own expressions, and the names that are made by them. A recorded name is a node, by its place, and selectors that say no name are the node behind these.
ghost use Rattle.std.specs.Prelude.{◌≡◌, ◌++◌, List, map, IfOk, OnOk};
ghost use Rattle.std.specs.List.{flat_map};
ghost use Rattle.lf_ast.specs.Rules.{RuleTree, rule_tree, rule_trees};
ghost use Rattle.lf_deps.specs.views.Sources.{IsSourcesOf};
ghost use Rattle.lf_trials.specs.Reached.{has_several_rules};
ghost use Rattle.lf_forks.specs.views.NameMarks.{Marks};
ghost use Rattle.lf_forks.specs.views.Uses.{AreOwn, fork_nodes};

use crate::holding::holds;
use crate::name_marks::NameMarks;
use lf_ast::Rule;
use lf_base::{Memory, Seq};
use lf_classes::recorded_names;
use lf_deps::Sources;
use std::alloc::Global;

/// The names that several rules record, by the index of the rules.
pub(crate) fn own_forks(
    alloc: Global,
    rules: &Seq<Rule>,
    sources: &Sources,
) -> Result<NameMarks, Memory>
    requires { IsSourcesOf (rule_trees rules.now) sources.now }
    ensures { IfOk result (AreOwn (rule_trees rules.now)) }
{
    let names = recorded_names(alloc, rules.as_slice())?;
    let marked = have_several(alloc, sources)?;
    Ok(NameMarks {
        names,
        marked,
        without_name: false,
    })
}

/// For each recorded name whether several rules record it.
fn have_several(alloc: Global, sources: &Sources) -> Result<Vec<bool>, Memory>
    ensures { (rules : List RuleTree) → IsSourcesOf rules sources.now → IfOk result (λ several. several.items ≡ map (has_several_rules rules) sources.now.names) }
{
    let mut several = Vec::with_capacity(alloc, sources.recorded().len())?;
    for k in 0..sources.recorded().len() {
        let makers = sources.makers_at(k);
        several.push(makers.len() > 1)?;
    }
    Ok(several)
}

impl NameMarks {
    /// The nodes of the rules that record a name and have an `or` or a marked selector in their expression.
    pub(crate) fn nodes_of_rules(
        &self,
        alloc: Global,
        rules: &Seq<Rule>,
    ) -> Result<Seq<usize>, Memory>
        ensures { IfOk result (λ nodes. nodes ≡ flat_map (fork_nodes self.now) (rule_trees rules.now)) }
    {
        let mut nodes = Seq::new(alloc);
        for k in 0..rules.len() {
            self.push_nodes(alloc, rules.get(k), &mut nodes)?;
        }
        Ok(nodes)
    }

    /// Puts the nodes of a rule behind others, if it is such a rule: its name, and selectors that say none.
    fn push_nodes(&self, alloc: Global, rule: &Rule, nodes: &mut Seq<usize>) -> Result<(), Memory>
        ensures { OnOk result (nodes.new ≡ nodes.old ++ fork_nodes self.now (rule_tree rule.now)) }
    {
        if rule.alert {
            return Ok(());
        }
        if holds(alloc, self, &rule.expr)? {
            nodes.push(self.names.place(rule.name.as_str()))?;
            nodes.push(self.names.len())?;
        }
        Ok(())
    }

    /// With the names at these nodes marked too; and selectors that say none, if there is such a node.
    pub(crate) fn with(mut self, nodes: &[usize]) -> NameMarks
        ensures { Marks nodes.now self result }
    {
        for node in nodes {
            self.mark_place(*node);
        }
        self
    }
}
