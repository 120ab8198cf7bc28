//! rule/dependency: selectors of names with a colon that no rule records, and of names that are read in their own making.
ghost use Rattle.std.specs.Prelude.{◌≡◌, ◌↔◌, ◌==◌, List, length, IsTrue, IfOk, OnOk};
ghost use Rattle.lf_ast.specs.Rules.{RuleTree, rule_tree, rule_trees};
ghost use Rattle.lf_ast.specs.Tree.{nodes, tree};
ghost use Rattle.lf_ast.specs.views.Walks.{trees_at};
ghost use Rattle.lf_deps.specs.Reading.{IsCyclic};
ghost use Rattle.lf_checks.specs.RuleDependency.{IsFound};
ghost use Rattle.lf_checks.specs.views.Adding.{Adds};
ghost use Rattle.lf_checks.specs.views.Recorded.{AreOf, AreOfSome, IsLacking, IsOfName, IsOfSelector};
ghost use Rattle.lf_checks.specs.views.Shown.{ListsAlone};

use crate::case::Case;
use crate::telling::tell_if;
use lf_ast::{Expr, Finding, Rule, selected_name};
use lf_base::names::has_colon;
use lf_base::{Memory, Seq, Span, Text};
use lf_deps::{NameGraph, Sources, cyclic_of};
use std::alloc::Global;

/// The names that rules record, and what their rules read. Who asks of many rules makes them once.
#[derive(Drop)]
pub struct RecordedNames {
    sources: Sources,
    graph: NameGraph,
}

impl RecordedNames {
    /// Those of rules. It takes about as long as the rules and their selectors are many.
    pub fn of(alloc: Global, rules: &Seq<Rule>) -> Result<RecordedNames, Memory>
        ensures { IfOk result (AreOf (rule_trees rules.now)) }
    {
        let sources = Sources::of(alloc, rules)?;
        let graph = NameGraph::of(alloc, &sources)?;
        Ok(RecordedNames { sources, graph })
    }

    /// How many names there are, each once.
    pub fn count(&self) -> usize
        ensures { result ≡ length self.now.sources.names }
    {
        self.sources.recorded().len()
    }

    /// What each rule selects, and which rules record each name.
    pub fn sources(&self) -> &Sources
        ensures { result.now ≡ self.now.sources }
    {
        &self.sources
    }

    /// The graph of the names.
    pub fn graph(&self) -> &NameGraph
        ensures { result.now ≡ self.now.graph }
    {
        &self.graph
    }

    /// Whether a name has a colon, and no rule records it.
    fn lack(&self, name: &Text) -> bool
        ensures { (rules : List RuleTree) → AreOf rules self.now → IsTrue result ↔ IsLacking rules name.now }
    {
        let names = self.sources.recorded();
        has_colon(name.as_str()) && names.place(name.as_str()) == names.len()
    }

    /// Whether a name is read in its own making.
    fn read_themselves(&self, name: &Text) -> bool
        requires { AreOfSome self.now }
        ensures { (rules : List RuleTree) → AreOf rules self.now → IsTrue result ↔ IsCyclic rules name.now }
    {
        cyclic_of(&self.sources, &self.graph, name)
    }
}

/// What the check finds of a rule, by its expression and all parts in it, and by the recorded names of all rules.
pub(crate) fn rule_dependency(
    alloc: Global,
    recorded: &RecordedNames,
    rule: &Rule,
    parts: &[&Expr],
) -> Result<Vec<Finding>, Memory>
    requires recorded { AreOfSome recorded.now }
    requires parts { trees_at parts.now ≡ nodes (rule_tree rule.now).expr }
    ensures { (rules : List RuleTree) → AreOf rules recorded.now → IfOk result (λ found. ListsAlone (IsFound rules (rule_tree rule.now)) found.items) }
{
    let mut found = Vec::new(alloc);
    for part in parts {
        judge_part(alloc, recorded, part, &mut found)?;
    }
    Ok(found)
}

/// Tells what is found of the name of a selector, and nothing of any other part.
fn judge_part(
    alloc: Global,
    recorded: &RecordedNames,
    part: &Expr,
    found: &mut Vec<Finding>,
) -> Result<(), Memory>
    requires { AreOfSome recorded.now }
    ensures { (rules : List RuleTree) → AreOf rules recorded.now → OnOk result (Adds (IsOfSelector rules (tree part.now)) found.old.items found.new.items) }
{
    match part {
        Expr::Selector {
            name,
            matchers,
            span,
            ..
        } => match selected_name(name, matchers.as_slice()) {
            Some(name) => judge_name(alloc, recorded, name, *span, found),
            None => Ok(()),
        },
        _ => Ok(()),
    }
}

/// Tells what is found of a name at a span.
fn judge_name(
    alloc: Global,
    recorded: &RecordedNames,
    name: &Text,
    span: Span,
    found: &mut Vec<Finding>,
) -> Result<(), Memory>
    requires { AreOfSome recorded.now }
    ensures { (rules : List RuleTree) → AreOf rules recorded.now → OnOk result (Adds (IsOfName rules name.now span) found.old.items found.new.items) }
{
    let lacking = recorded.lack(name);
    tell_if(alloc, lacking, Case::Unrecorded, span, name.as_str(), found)?;
    let cyclic = recorded.read_themselves(name);
    tell_if(alloc, cyclic, Case::Cyclic, span, name.as_str(), found)
}
