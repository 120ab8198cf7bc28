//! alert/template: a template of an alert that names a label which none of its samples has, or that can't be read.
ghost use Rattle.std.specs.Prelude.{◌≡◌, ◌+◌, length, IfOk};
ghost use Rattle.std.specs.List.{Contains};
ghost use Rattle.std.specs.List.Sorted.{IsNonDecreasing};
ghost use Rattle.lf_laws.specs.Gaining.{OfSome};
ghost use Rattle.lf_ast.specs.Rules.{rule_tree};
ghost use Rattle.lf_ast.specs.declared.rule.Template.{Template};
ghost use Rattle.lf_semantics.specs.ClassRows.{HasShape};
ghost use Rattle.lf_checks.specs.AlertTemplate.{IsFound};
ghost use Rattle.lf_checks.specs.views.Shown.{ListsAlone};
ghost use Rattle.lf_checks.specs.views.TemplateCases.{IsOfReference, IsOfTemplate};

use crate::case::{Case, found_if};
use crate::judged::is_impossible;
use lf_ast::{Finding, Rule, Template};
use lf_base::{Memory, Refusal};
use lf_classes::{Row, Universe};
use lf_templates::{Reference, references};
use std::alloc::Global;

/// The references in the templates of an alert with this row to labels that none of its samples has, and the templates that can't be read.
pub(crate) fn alert_template(
    alloc: Global,
    universe: &Universe,
    row: &Row,
    rule: &Rule,
) -> Result<Vec<Finding>, Memory>
    requires shape { HasShape universe.now row.now }
    requires sources { (t : Template) → Contains rule.now.templates t → (length t.from ≡ length t.text + 1) × IsNonDecreasing t.from }
    ensures { IfOk result (λ found. ListsAlone (IsFound universe.now row.now (rule_tree rule.now)) found.items) }
{
    let mut found = Vec::new(alloc);
    if !rule.alert {
        return Ok(found);
    }
    for template in rule.templates.as_slice() {
        let mut more = of_template(alloc, universe, row, template)?;
        found.append(&mut more)?;
    }
    Ok(found)
}

/// What is found of a template.
fn of_template(
    alloc: Global,
    universe: &Universe,
    row: &Row,
    template: &Template,
) -> Result<Vec<Finding>, Memory>
    requires shape { HasShape universe.now row.now }
    requires from { length template.now.from ≡ length template.now.text + 1 }
    requires rises { IsNonDecreasing template.now.from }
    ensures { IfOk result (λ found. ListsAlone (IsOfTemplate universe.now row.now template.now) found.items) }
{
    match references(alloc, template) {
        Ok(found) => of_references(alloc, universe, row, found.as_slice()),
        Err(Refusal::At { span, .. }) => found_if(alloc, true, Case::UnreadableTemplate, span, ""),
        Err(Refusal::Memory) => Err(Memory),
    }
}

/// The references to labels that no sample has.
fn of_references(
    alloc: Global,
    universe: &Universe,
    row: &Row,
    references: &[Reference],
) -> Result<Vec<Finding>, Memory>
    requires { HasShape universe.now row.now }
    ensures { IfOk result (λ found. ListsAlone (OfSome (IsOfReference universe.now row.now) references.now) found.items) }
{
    let mut found = Vec::new(alloc);
    for reference in references {
        let mut more = of_reference(alloc, universe, row, reference)?;
        found.append(&mut more)?;
    }
    Ok(found)
}

/// That no sample has the label of a reference, where it is so.
fn of_reference(
    alloc: Global,
    universe: &Universe,
    row: &Row,
    reference: &Reference,
) -> Result<Vec<Finding>, Memory>
    requires { HasShape universe.now row.now }
    ensures { IfOk result (λ found. ListsAlone (IsOfReference universe.now row.now reference.now) found.items) }
{
    let label = reference.label.as_str();
    let is_found = is_impossible(universe, row, label);
    found_if(alloc, is_found, Case::NeverOnAlert, reference.span, label)
}
