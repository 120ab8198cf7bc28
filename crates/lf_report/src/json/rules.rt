//! Rules, findings and refusals as JSON.
ghost use Rattle.std.specs.Prelude.{◌≡◌, ◌++◌, ◌<◌, false, length, map, slice_get, Some, IfOk, OnOk};
ghost use Rattle.serde_json.specs.View.{view};
ghost use Rattle.serde_json.specs.Written.{compact_text};
ghost use Rattle.lf_report.specs.Json.{finding_data, kind_name, refusal_data, rule_data};
ghost use Rattle.lf_report.specs.Numbers.{NameRulesBelow, StandInFiles, labels_of};
ghost use Rattle.lf_report.specs.declared.report.FileReport.{FileReport};
ghost use Rattle.lf_report.specs.views.Pieces.{listed, rule_end, rule_head, rule_kind};
ghost use Rattle.lf_report.specs.views.LineIndex.{AreIndexed};

use crate::json::labels::push_labels;
use crate::json::pieces::{push_comma, push_count, push_text, push_value};
use crate::line_index::{LineIndex, Position, position_in};
use crate::{Report, ReportedFinding, RuleReport};
use lf_base::{Memory, Text};
use serde_json::{Value, json};
use std::alloc::{AllocError, Global};

/// Why the file with this number is refused, if it is.
pub fn refusal_value(
    alloc: Global,
    report: &Report,
    indexes: &[LineIndex],
    file: usize,
) -> Result<Value, AllocError>
    requires file { file < length report.now.files }
    requires indexes { AreIndexed report.now.files indexes.now }
    ensures { (it : FileReport) → slice_get report.now.files file ≡ Some it → IfOk result (λ value. view value ≡ refusal_data it it.refusal) }
{
    match &report.files.get(file).refusal {
        None => Ok(Value::Null),
        Some(why) => {
            let position = position_in(report, indexes, file, why.span.start);
            json!(in alloc; {
                "column": position.column,
                "end": why.span.end,
                "kind": why.kind.name(),
                "line": position.line,
                "start": why.span.start,
                "text": why.kind.text()
            })
        }
    }
}

/// Appends a rule of the file with this number.
pub fn push_rule(
    alloc: Global,
    text: &mut Text,
    report: &Report,
    indexes: &[LineIndex],
    file: usize,
    rule: &RuleReport,
) -> Result<(), Memory>
    requires file { file < length report.now.files }
    requires files { StandInFiles report.now }
    requires rules { NameRulesBelow (length report.now.rules) (labels_of rule.now.verdicts) }
    requires indexes { AreIndexed report.now.files indexes.now }
    ensures { (it : FileReport) → slice_get report.now.files file ≡ Some it → OnOk result (text.new ≡ text.old ++ compact_text (rule_data report.now it rule.now)) }
{
    let position = position_in(report, indexes, file, rule.name_span.start);
    push_rule_head(alloc, text, position, rule)?;
    push_findings(alloc, text, report, indexes, file, rule.findings.as_slice())?;
    push_rule_kind(alloc, text, kind_name(rule.alert))?;
    push_labels(alloc, text, report, indexes, rule)?;
    push_rule_end(alloc, text, position, rule)
}

/// Appends a rule whose name stands at this position, up to its findings.
fn push_rule_head(
    alloc: Global,
    text: &mut Text,
    position: Position,
    rule: &RuleReport,
) -> Result<(), Memory>
    ensures { OnOk result (text.new ≡ text.old ++ rule_head position.column rule.now.empty) }
{
    push_count(alloc, text, "{\"column\":", position.column)?;
    text.push(",\"empty\":")?;
    push_value(alloc, text, &Value::from(rule.empty))?;
    text.push(",\"findings\":[")
}

/// Appends what a rule is called, with what stands between its findings and its labels.
fn push_rule_kind(alloc: Global, text: &mut Text, kind: &str) -> Result<(), Memory>
    ensures { OnOk result (text.new ≡ text.old ++ rule_kind kind.now) }
{
    push_text(alloc, text, "],\"kind\":", kind)?;
    text.push(",\"labels\":")
}

/// Appends what stands behind a rule's labels.
fn push_rule_end(
    alloc: Global,
    text: &mut Text,
    position: Position,
    rule: &RuleReport,
) -> Result<(), Memory>
    ensures { OnOk result (text.new ≡ text.old ++ rule_end position.line rule.now.name) }
{
    push_count(alloc, text, ",\"line\":", position.line)?;
    push_text(alloc, text, ",\"name\":", rule.name.as_str())?;
    text.push("}")
}

/// What a rule is called.
fn kind_name(alert: bool) -> &'static str
    ensures { result.now ≡ kind_name alert }
{
    if alert { "alert" } else { "record" }
}

/// Appends findings on a rule of the file with this number, with commas between them.
fn push_findings(
    alloc: Global,
    text: &mut Text,
    report: &Report,
    indexes: &[LineIndex],
    file: usize,
    findings: &[ReportedFinding],
) -> Result<(), Memory>
    requires file { file < length report.now.files }
    requires indexes { AreIndexed report.now.files indexes.now }
    ensures { (it : FileReport) → slice_get report.now.files file ≡ Some it → OnOk result (text.new ≡ text.old ++ listed false (map (finding_data it) findings.now)) }
{
    for k in 0..findings.len() {
        push_comma(text, k)?;
        push_finding(alloc, text, report, indexes, file, &findings[k])?;
    }
    Ok(())
}

/// Appends a finding.
fn push_finding(
    alloc: Global,
    text: &mut Text,
    report: &Report,
    indexes: &[LineIndex],
    file: usize,
    finding: &ReportedFinding,
) -> Result<(), Memory>
    requires file { file < length report.now.files }
    requires indexes { AreIndexed report.now.files indexes.now }
    ensures { (it : FileReport) → slice_get report.now.files file ≡ Some it → OnOk result (text.new ≡ text.old ++ compact_text (finding_data it finding.now)) }
{
    let value = finding_value(alloc, report, indexes, file, finding)?;
    push_value(alloc, text, &value)
}

/// A finding.
fn finding_value(
    alloc: Global,
    report: &Report,
    indexes: &[LineIndex],
    file: usize,
    finding: &ReportedFinding,
) -> Result<Value, AllocError>
    requires file { file < length report.now.files }
    requires indexes { AreIndexed report.now.files indexes.now }
    ensures { (it : FileReport) → slice_get report.now.files file ≡ Some it → IfOk result (λ value. view value ≡ finding_data it finding.now) }
{
    let position = position_in(report, indexes, file, finding.span.start);
    json!(in alloc; {
        "check": finding.check,
        "column": position.column,
        "end": finding.span.end,
        "line": position.line,
        "severity": finding.severity.name(),
        "start": finding.span.start,
        "text": finding.text.as_str()
    })
}
