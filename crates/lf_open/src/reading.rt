//! Marks of what rules read: what can't be silent, and what names `le`.
ghost use Rattle.std.specs.Prelude.{◌≡◌, map, IfOk};
ghost use Rattle.lf_ast.specs.Rules.{rule_tree, rule_trees};
ghost use Rattle.lf_ast.specs.Tree.{tree};
ghost use Rattle.lf_deps.specs.views.Names.{IsNameGraphOf};
ghost use Rattle.lf_deps.specs.views.Sources.{IsSourcesOf};
ghost use Rattle.lf_open.specs.Holding.{has_own_source, names_le};
ghost use Rattle.lf_open.specs.views.Marks.{TellsReading};

use crate::choosing::chosen;
use crate::holding::{has_own_source, rule_names_le};
use crate::marks::marks_of;
use lf_ast::Rule;
use lf_base::{Memory, Seq};
use lf_deps::{NameGraph, Sources};
use lf_forks::NameMarks;
use std::alloc::Global;

/// Which selectors read a rule that can't be silent by itself.
pub(crate) fn loud_marks(
    alloc: Global,
    rules: &Seq<Rule>,
    sources: &Sources,
    graph: &NameGraph,
) -> Result<NameMarks, Memory>
    requires sources { IsSourcesOf (rule_trees rules.now) sources.now }
    requires graph { IsNameGraphOf sources.now graph.now }
    ensures { IfOk result (TellsReading (rule_trees rules.now) (λ r. has_own_source r.expr)) }
{
    let passing = loud_rules(alloc, rules)?;
    let found = chosen(alloc, sources, graph, passing.as_slice())?;
    marks_of(alloc, rules, found.as_slice())
}

/// Which selectors read a rule that names `le`.
pub(crate) fn le_marks(
    alloc: Global,
    rules: &Seq<Rule>,
    sources: &Sources,
    graph: &NameGraph,
) -> Result<NameMarks, Memory>
    requires sources { IsSourcesOf (rule_trees rules.now) sources.now }
    requires graph { IsNameGraphOf sources.now graph.now }
    ensures { IfOk result (TellsReading (rule_trees rules.now) names_le) }
{
    let passing = rules_on_le(alloc, rules)?;
    let found = chosen(alloc, sources, graph, passing.as_slice())?;
    marks_of(alloc, rules, found.as_slice())
}

/// For each rule whether its expression has a call that gives a sample by itself.
fn loud_rules(alloc: Global, rules: &Seq<Rule>) -> Result<Vec<bool>, Memory>
    ensures { IfOk result (λ passing. passing.items ≡ map (λ r. has_own_source (tree r.expr)) rules.now) }
{
    let mut passing = Vec::new(alloc);
    for rule in rules.as_slice() {
        passing.push(has_own_source(alloc, &rule.expr)?)?;
    }
    Ok(passing)
}

/// For each rule whether it names `le`.
fn rules_on_le(alloc: Global, rules: &Seq<Rule>) -> Result<Vec<bool>, Memory>
    ensures { IfOk result (λ passing. passing.items ≡ map (λ r. names_le (rule_tree r)) rules.now) }
{
    let mut passing = Vec::new(alloc);
    for rule in rules.as_slice() {
        passing.push(rule_names_le(alloc, rule)?)?;
    }
    Ok(passing)
}
