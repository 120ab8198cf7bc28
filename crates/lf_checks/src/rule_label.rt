//! rule/label: a label of a recording rule that replaces one which each sample has, or that removes one which no sample has.
ghost use Rattle.std.specs.Prelude.{IfOk};
ghost use Rattle.lf_ast.specs.Rules.{rule_tree};
ghost use Rattle.lf_semantics.specs.ClassRows.{HasShape};
ghost use Rattle.lf_checks.specs.RuleLabel.{IsFound};
ghost use Rattle.lf_checks.specs.views.LabelCases.{IsOfLabel};
ghost use Rattle.lf_checks.specs.views.Shown.{ListsAlone};

use crate::case::{Case, found_if};
use crate::judged::{is_guaranteed, is_impossible};
use lf_ast::{Finding, Rule, RuleLabel};
use lf_base::Memory;
use lf_classes::{Row, Universe};
use std::alloc::Global;

/// The labels of a recording rule with this row that replace a label of each sample, or remove one that no sample has.
pub(crate) fn rule_label(
    alloc: Global,
    universe: &Universe,
    row: &Row,
    rule: &Rule,
) -> Result<Vec<Finding>, Memory>
    requires { HasShape universe.now row.now }
    ensures { IfOk result (λ found. ListsAlone (IsFound universe.now row.now (rule_tree rule.now)) found.items) }
{
    let mut found = Vec::new(alloc);
    if rule.alert {
        return Ok(found);
    }
    for label in rule.labels.as_slice() {
        let mut more = of_label(alloc, universe, row, label)?;
        found.append(&mut more)?;
    }
    Ok(found)
}

/// What is found of a label.
fn of_label(
    alloc: Global,
    universe: &Universe,
    row: &Row,
    label: &RuleLabel,
) -> Result<Vec<Finding>, Memory>
    requires { HasShape universe.now row.now }
    ensures { IfOk result (λ found. ListsAlone (IsOfLabel universe.now row.now label.now) found.items) }
{
    let key = label.key.as_str();
    if label.value.as_str().is_empty() {
        let holds = is_impossible(universe, row, key);
        found_if(alloc, holds, Case::RemovesNothing, label.key_span, key)
    } else {
        let holds = is_guaranteed(universe, row, key);
        found_if(alloc, holds, Case::ReplacesLabel, label.key_span, key)
    }
}
