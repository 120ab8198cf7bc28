//! The JSON of a report, which is written label set by label set and finding by finding, so that no value of more than one of them is made.
ghost use Rattle.std.specs.Prelude.{◌≡◌, ◌<◌, ◌++◌, false, length, map, slice_get, Some, IfOk, OnOk};
ghost use Rattle.serde_json.specs.Written.{compact_text};
ghost use Rattle.lf_report.specs.Json.{file_data, files_items, report_json, rule_data, told_rules};
ghost use Rattle.lf_report.specs.Numbers.{NameRules, StandInFiles, rules_of};
ghost use Rattle.lf_report.specs.declared.report.FileReport.{FileReport};
ghost use Rattle.lf_report.specs.declared.report.RuleReport.{RuleReport};
ghost use Rattle.lf_report.specs.views.Lookups.{IsLookup};
ghost use Rattle.lf_report.specs.views.Pieces.{file_head, listed};
ghost use Rattle.lf_report.specs.views.Totals.{AreTotals};

mod labels;
mod pieces;
mod rules;
mod totals;
mod worlds;

use crate::Report;
use crate::counting::Totals;
use crate::places::{Lookup, numbers_at};
use lf_base::{Memory, Text};
use pieces::{push_comma, push_text, push_value};
use rules::{push_rule, refusal_value};
use std::alloc::Global;
use totals::summary_value;

/// The JSON of a report: one compact object and a line feed.
pub fn json_of(alloc: Global, report: &Report) -> Result<Text, Memory>
    requires files { StandInFiles report.now }
    requires rules { NameRules report.now }
    ensures { IfOk result (λ text. text ≡ report_json report.now) }
{
    let lookup = Lookup::of(alloc, report)?;
    let totals = Totals::of(report.rules.as_slice())?;
    written(alloc, report, &lookup, &totals)
}

/// The same, by the look-ups of the report and its totals.
fn written(alloc: Global, report: &Report, lookup: &Lookup, totals: &Totals) -> Result<Text, Memory>
    requires files { StandInFiles report.now }
    requires rules { NameRules report.now }
    requires lookup { IsLookup report.now lookup.now }
    requires totals { AreTotals report.now.rules totals.now }
    ensures { IfOk result (λ text. text ≡ report_json report.now) }
{
    let summary = summary_value(alloc, report, totals)?;
    let mut text = Text::of(alloc, "{\"files\":[")?;
    push_files(alloc, &mut text, report, lookup)?;
    text.push("],\"summary\":")?;
    push_value(alloc, &mut text, &summary)?;
    text.push("}\n")?;
    Ok(text)
}

/// Appends the files, with commas between them.
fn push_files(
    alloc: Global,
    text: &mut Text,
    report: &Report,
    lookup: &Lookup,
) -> Result<(), Memory>
    requires files { StandInFiles report.now }
    requires rules { NameRules report.now }
    requires lookup { IsLookup report.now lookup.now }
    ensures { OnOk result (text.new ≡ text.old ++ listed false (files_items report.now)) }
{
    for k in 0..report.files.len() {
        push_comma(text, k)?;
        push_file(alloc, text, report, lookup, k)?;
    }
    Ok(())
}

/// Appends the file with this number.
fn push_file(
    alloc: Global,
    text: &mut Text,
    report: &Report,
    lookup: &Lookup,
    file: usize,
) -> Result<(), Memory>
    requires file { file < length report.now.files }
    requires files { StandInFiles report.now }
    requires rules { NameRules report.now }
    requires lookup { IsLookup report.now lookup.now }
    ensures { (it : FileReport) → slice_get report.now.files file ≡ Some it → OnOk result (text.new ≡ text.old ++ compact_text (file_data report.now file it)) }
{
    push_file_head(alloc, text, report, lookup, file)?;
    push_told_rules(alloc, text, report, lookup, file)?;
    text.push("]}")
}

/// Appends the rules of the file with this number, unless it is refused.
fn push_told_rules(
    alloc: Global,
    text: &mut Text,
    report: &Report,
    lookup: &Lookup,
    file: usize,
) -> Result<(), Memory>
    requires file { file < length report.now.files }
    requires files { StandInFiles report.now }
    requires rules { NameRules report.now }
    requires lookup { IsLookup report.now lookup.now }
    ensures { (it : FileReport) → slice_get report.now.files file ≡ Some it → OnOk result (text.new ≡ text.old ++ listed false (map (rule_data report.now it) (told_rules report.now file it.refusal))) }
{
    match &report.files.get(file).refusal {
        None => push_rules(alloc, text, report, lookup, file),
        Some(_) => Ok(()),
    }
}

/// Appends a file up to its rules.
fn push_file_head(
    alloc: Global,
    text: &mut Text,
    report: &Report,
    lookup: &Lookup,
    file: usize,
) -> Result<(), Memory>
    requires file { file < length report.now.files }
    requires lookup { IsLookup report.now lookup.now }
    ensures { (it : FileReport) → slice_get report.now.files file ≡ Some it → OnOk result (text.new ≡ text.old ++ file_head it) }
{
    push_text(
        alloc,
        text,
        "{\"name\":",
        report.files.get(file).name.as_str(),
    )?;
    let refusal = refusal_value(alloc, report, lookup.indexes.as_slice(), file)?;
    text.push(",\"refusal\":")?;
    push_value(alloc, text, &refusal)?;
    text.push(",\"rules\":[")
}

/// Appends the rules of the file with this number, with commas between them.
fn push_rules(
    alloc: Global,
    text: &mut Text,
    report: &Report,
    lookup: &Lookup,
    file: usize,
) -> Result<(), Memory>
    requires file { file < length report.now.files }
    requires files { StandInFiles report.now }
    requires rules { NameRules report.now }
    requires lookup { IsLookup report.now lookup.now }
    ensures { (it : FileReport) → slice_get report.now.files file ≡ Some it → OnOk result (text.new ≡ text.old ++ listed false (map (rule_data report.now it) (rules_of report.now file))) }
{
    let numbers = numbers_at(lookup, file);
    for k in 0..numbers.len() {
        push_comma(text, k)?;
        push_rule_at(alloc, text, report, lookup, file, *numbers.get(k))?;
    }
    Ok(())
}

/// Appends the rule with this number, of the file with that one.
fn push_rule_at(
    alloc: Global,
    text: &mut Text,
    report: &Report,
    lookup: &Lookup,
    file: usize,
    rule: usize,
) -> Result<(), Memory>
    requires file { file < length report.now.files }
    requires rule { rule < length report.now.rules }
    requires files { StandInFiles report.now }
    requires rules { NameRules report.now }
    requires lookup { IsLookup report.now lookup.now }
    ensures { (it : FileReport) (this : RuleReport) → slice_get report.now.files file ≡ Some it → slice_get report.now.rules rule ≡ Some this → OnOk result (text.new ≡ text.old ++ compact_text (rule_data report.now it this)) }
{
    let rule = report.rules.get(rule);
    push_rule(alloc, text, report, lookup.indexes.as_slice(), file, rule)
}
