//! The text of a report.
ghost use Rattle.std.specs.Prelude.{◌≡◌, ◌<◌, ◌++◌, ◌∷◌, [], length, map, slice_get, Some, IfOk, OnOk};
ghost use Rattle.std.specs.List.{flat_map};
ghost use Rattle.lf_report.specs.Numbers.{NameRules, NameRulesBelow, StandInFiles, labels_in, labels_of, rules_of};
ghost use Rattle.lf_base.specs.Lines.{lines_text};
ghost use Rattle.lf_report.specs.Text.{file_lines, files_lines, finding_line, report_text, rule_line, rule_lines, said_lines, totals_lines, verdict_lines};
ghost use Rattle.lf_report.specs.declared.report.FileReport.{FileReport};
ghost use Rattle.lf_report.specs.views.Heads.{label_head};
ghost use Rattle.lf_report.specs.views.Lookups.{IsLookup};
ghost use Rattle.lf_report.specs.views.LineIndex.{AreIndexed};
ghost use Rattle.lf_report.specs.views.Totals.{AreTotals};

mod labels;
mod lines;

use crate::counting::Totals;
use crate::line_index::LineIndex;
use crate::places::{Lookup, Naming, numbers_at, place_in};
use crate::shown::shown_name;
use crate::{Report, ReportedFinding, RuleReport};
use labels::{label_heads, push_labels};
use lf_ast::RuleVerdicts;
use lf_base::{Memory, Text};
use lines::{
    push_finding_line, push_refused_line, push_rule_line, push_totals_line, push_verdicts_line,
};
use std::alloc::Global;

/// The text of a report: what is told of each file, and the totals.
pub fn text_of(alloc: Global, report: &Report) -> Result<Text, Memory>
    requires files { StandInFiles report.now }
    requires rules { NameRules report.now }
    ensures { IfOk result (λ text. text ≡ report_text report.now) }
{
    let lookup = Lookup::of(alloc, report)?;
    looked_up(alloc, report, &lookup)
}

/// The same, by the look-ups of the report.
fn looked_up(alloc: Global, report: &Report, lookup: &Lookup) -> Result<Text, Memory>
    requires files { StandInFiles report.now }
    requires rules { NameRules report.now }
    requires lookup { IsLookup report.now lookup.now }
    ensures { IfOk result (λ text. text ≡ report_text report.now) }
{
    let labels = label_heads(alloc, report.universe.as_slice())?;
    let totals = Totals::of(report.rules.as_slice())?;
    let mut text = Text::of(alloc, "")?;
    push_files(alloc, &mut text, report, lookup, labels.as_slice())?;
    push_totals(alloc, &mut text, report, &totals)?;
    Ok(text)
}

/// Appends what is told of all files. `labels` are how the lines of the labels begin.
fn push_files(
    alloc: Global,
    text: &mut Text,
    report: &Report,
    lookup: &Lookup,
    labels: &[Text],
) -> Result<(), Memory>
    requires files { StandInFiles report.now }
    requires rules { NameRules report.now }
    requires lookup { IsLookup report.now lookup.now }
    requires labels { labels.now ≡ map label_head report.now.universe }
    ensures { OnOk result (text.new ≡ text.old ++ lines_text (files_lines report.now)) }
{
    for k in 0..report.files.len() {
        push_file(alloc, text, report, lookup, labels, k)?;
    }
    Ok(())
}

/// Appends what is told of the file with this number.
fn push_file(
    alloc: Global,
    text: &mut Text,
    report: &Report,
    lookup: &Lookup,
    labels: &[Text],
    file: usize,
) -> Result<(), Memory>
    requires file { file < length report.now.files }
    requires files { StandInFiles report.now }
    requires rules { NameRules report.now }
    requires lookup { IsLookup report.now lookup.now }
    requires labels { labels.now ≡ map label_head report.now.universe }
    ensures { (it : FileReport) → slice_get report.now.files file ≡ Some it → OnOk result (text.new ≡ text.old ++ lines_text (file_lines report.now file it it.refusal)) }
{
    match &report.files.get(file).refusal {
        None => push_rules(alloc, text, report, lookup, labels, file),
        Some(why) => {
            let indexes = lookup.indexes.as_slice();
            let place = place_in(alloc, report, indexes, Naming::Shown, file, why.span.start)?;
            push_refused_line(alloc, text, place.as_str(), why.kind)
        }
    }
}

/// Appends what is told of the rules of the file with this number.
fn push_rules(
    alloc: Global,
    text: &mut Text,
    report: &Report,
    lookup: &Lookup,
    labels: &[Text],
    file: usize,
) -> Result<(), Memory>
    requires file { file < length report.now.files }
    requires files { StandInFiles report.now }
    requires rules { NameRules report.now }
    requires lookup { IsLookup report.now lookup.now }
    requires labels { labels.now ≡ map label_head report.now.universe }
    ensures { (it : FileReport) → slice_get report.now.files file ≡ Some it → OnOk result (text.new ≡ text.old ++ lines_text (flat_map (rule_lines report.now it) (rules_of report.now file))) }
{
    let numbers = numbers_at(lookup, file);
    let indexes = lookup.indexes.as_slice();
    for k in 0..numbers.len() {
        let rule = report.rules.get(*numbers.get(k));
        push_rule(alloc, text, report, indexes, labels, file, rule)?;
    }
    Ok(())
}

/// Appends what is told of a rule of the file with this number.
fn push_rule(
    alloc: Global,
    text: &mut Text,
    report: &Report,
    indexes: &[LineIndex],
    labels: &[Text],
    file: usize,
    rule: &RuleReport,
) -> Result<(), Memory>
    requires file { file < length report.now.files }
    requires files { StandInFiles report.now }
    requires rules { NameRulesBelow (length report.now.rules) (labels_of rule.now.verdicts) }
    requires indexes { AreIndexed report.now.files indexes.now }
    requires labels { labels.now ≡ map label_head report.now.universe }
    ensures { (it : FileReport) → slice_get report.now.files file ≡ Some it → OnOk result (text.new ≡ text.old ++ lines_text (rule_lines report.now it rule.now)) }
{
    push_verdicts(alloc, text, report, indexes, labels, file, rule)?;
    push_findings(alloc, text, report, indexes, file, rule.findings.as_slice())
}

/// Appends the verdicts on a rule, where they are told.
fn push_verdicts(
    alloc: Global,
    text: &mut Text,
    report: &Report,
    indexes: &[LineIndex],
    labels: &[Text],
    file: usize,
    rule: &RuleReport,
) -> Result<(), Memory>
    requires file { file < length report.now.files }
    requires files { StandInFiles report.now }
    requires rules { NameRulesBelow (length report.now.rules) (labels_of rule.now.verdicts) }
    requires indexes { AreIndexed report.now.files indexes.now }
    requires labels { labels.now ≡ map label_head report.now.universe }
    ensures { (it : FileReport) → slice_get report.now.files file ≡ Some it → OnOk result (text.new ≡ text.old ++ lines_text (verdict_lines report.now it rule.now rule.now.verdicts)) }
{
    match &rule.verdicts {
        None => Ok(()),
        Some(verdicts) => {
            push_head(alloc, text, report, indexes, file, rule)?;
            push_said(alloc, text, report, indexes, labels, verdicts)
        }
    }
}

/// Appends what verdicts say: a line for each label, or one that the rule is empty.
fn push_said(
    alloc: Global,
    text: &mut Text,
    report: &Report,
    indexes: &[LineIndex],
    labels: &[Text],
    verdicts: &RuleVerdicts,
) -> Result<(), Memory>
    requires files { StandInFiles report.now }
    requires rules { NameRulesBelow (length report.now.rules) (labels_in verdicts.now) }
    requires indexes { AreIndexed report.now.files indexes.now }
    requires labels { labels.now ≡ map label_head report.now.universe }
    ensures { OnOk result (text.new ≡ text.old ++ lines_text (said_lines report.now verdicts.now)) }
{
    match verdicts {
        RuleVerdicts::Empty => text.push("  empty\n"),
        RuleVerdicts::Labels { of } => {
            push_labels(alloc, text, report, indexes, labels, of.as_slice())
        }
    }
}

/// Appends the line of a rule, at its name.
fn push_head(
    alloc: Global,
    text: &mut Text,
    report: &Report,
    indexes: &[LineIndex],
    file: usize,
    rule: &RuleReport,
) -> Result<(), Memory>
    requires file { file < length report.now.files }
    requires indexes { AreIndexed report.now.files indexes.now }
    ensures { (it : FileReport) → slice_get report.now.files file ≡ Some it → OnOk result (text.new ≡ text.old ++ lines_text (rule_line it rule.now ∷ [])) }
{
    let place = place_in(
        alloc,
        report,
        indexes,
        Naming::Shown,
        file,
        rule.name_span.start,
    )?;
    push_rule_line(alloc, text, place.as_str(), rule.name.as_str())
}

/// Appends a line for each finding on a rule of the file with this number.
fn push_findings(
    alloc: Global,
    text: &mut Text,
    report: &Report,
    indexes: &[LineIndex],
    file: usize,
    findings: &[ReportedFinding],
) -> Result<(), Memory>
    requires file { file < length report.now.files }
    requires indexes { AreIndexed report.now.files indexes.now }
    ensures { (it : FileReport) → slice_get report.now.files file ≡ Some it → OnOk result (text.new ≡ text.old ++ lines_text (map (finding_line it) findings.now)) }
{
    for finding in findings {
        push_finding(alloc, text, report, indexes, file, finding)?;
    }
    Ok(())
}

/// Appends the line of a finding.
fn push_finding(
    alloc: Global,
    text: &mut Text,
    report: &Report,
    indexes: &[LineIndex],
    file: usize,
    finding: &ReportedFinding,
) -> Result<(), Memory>
    requires file { file < length report.now.files }
    requires indexes { AreIndexed report.now.files indexes.now }
    ensures { (it : FileReport) → slice_get report.now.files file ≡ Some it → OnOk result (text.new ≡ text.old ++ lines_text (finding_line it finding.now ∷ [])) }
{
    let place = place_in(
        alloc,
        report,
        indexes,
        Naming::Shown,
        file,
        finding.span.start,
    )?;
    let said = shown_name(alloc, finding.text.as_str())?;
    let severity = finding.severity.name();
    push_finding_line(
        alloc,
        text,
        place.as_str(),
        severity,
        finding.check,
        said.as_str(),
    )
}

/// Appends the totals, with those of verdicts where these are told.
fn push_totals(
    alloc: Global,
    text: &mut Text,
    report: &Report,
    totals: &Totals,
) -> Result<(), Memory>
    requires { AreTotals report.now.rules totals.now }
    ensures { OnOk result (text.new ≡ text.old ++ lines_text (totals_lines report.now)) }
{
    push_totals_line(
        alloc,
        text,
        report.files.len(),
        report.refused(),
        report.rules.len(),
        totals,
    )?;
    if report.labels {
        push_verdicts_line(alloc, text, totals)
    } else {
        Ok(())
    }
}
