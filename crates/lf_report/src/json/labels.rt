//! Labels with their verdicts, as JSON.
ghost use Rattle.std.specs.Prelude.{◌≡◌, ◌<◌, ◌++◌, false, length, IfOk, OnOk};
ghost use Rattle.serde_json.specs.View.{view};
ghost use Rattle.serde_json.specs.Written.{compact_text};
ghost use Rattle.lf_report.specs.Json.{label_data, labels_data, labels_items, list_data, plain_data, possible_data, said_items, unresolved_data};
ghost use Rattle.lf_report.specs.Numbers.{NameRulesBelow, NamesRuleBelow, StandInFiles, labels_in, labels_of};
ghost use Rattle.lf_report.specs.views.Pieces.{listed, possible_head};
ghost use Rattle.lf_report.specs.views.LineIndex.{AreIndexed};

use crate::json::pieces::{push_comma, push_text, push_value};
use crate::json::worlds::push_world;
use crate::line_index::LineIndex;
use crate::places::{Naming, place_in_rule};
use crate::{Report, RuleReport};
use lf_ast::{RuleVerdicts, Verdict, World};
use lf_base::{Memory, Text};
use serde_json::{Value, json};
use std::alloc::{AllocError, Global};

/// Appends the labels of a rule: null where they aren't told.
pub fn push_labels(
    alloc: Global,
    text: &mut Text,
    report: &Report,
    indexes: &[LineIndex],
    rule: &RuleReport,
) -> Result<(), Memory>
    requires files { StandInFiles report.now }
    requires rules { NameRulesBelow (length report.now.rules) (labels_of rule.now.verdicts) }
    requires indexes { AreIndexed report.now.files indexes.now }
    ensures { OnOk result (text.new ≡ text.old ++ compact_text (labels_data report.now rule.now.verdicts)) }
{
    match &rule.verdicts {
        None => text.push("null"),
        Some(verdicts) => push_said(alloc, text, report, indexes, verdicts),
    }
}

/// Appends what verdicts say of labels.
fn push_said(
    alloc: Global,
    text: &mut Text,
    report: &Report,
    indexes: &[LineIndex],
    verdicts: &RuleVerdicts,
) -> Result<(), Memory>
    requires files { StandInFiles report.now }
    requires rules { NameRulesBelow (length report.now.rules) (labels_in verdicts.now) }
    requires indexes { AreIndexed report.now.files indexes.now }
    ensures { OnOk result (text.new ≡ text.old ++ compact_text (list_data (said_items report.now verdicts.now))) }
{
    match verdicts {
        RuleVerdicts::Empty => text.push("[]"),
        RuleVerdicts::Labels { of } => push_told(alloc, text, report, indexes, of.as_slice()),
    }
}

/// Appends the list of the universe's labels with their verdicts.
fn push_told(
    alloc: Global,
    text: &mut Text,
    report: &Report,
    indexes: &[LineIndex],
    verdicts: &[Verdict],
) -> Result<(), Memory>
    requires files { StandInFiles report.now }
    requires rules { NameRulesBelow (length report.now.rules) verdicts.now }
    requires indexes { AreIndexed report.now.files indexes.now }
    ensures { OnOk result (text.new ≡ text.old ++ compact_text (list_data (labels_items report.now report.now.universe verdicts.now))) }
{
    text.push("[")?;
    push_each(alloc, text, report, indexes, verdicts)?;
    text.push("]")
}

/// Appends each label of the universe with its verdict, with commas between them.
fn push_each(
    alloc: Global,
    text: &mut Text,
    report: &Report,
    indexes: &[LineIndex],
    verdicts: &[Verdict],
) -> Result<(), Memory>
    requires files { StandInFiles report.now }
    requires rules { NameRulesBelow (length report.now.rules) verdicts.now }
    requires indexes { AreIndexed report.now.files indexes.now }
    ensures { OnOk result (text.new ≡ text.old ++ listed false (labels_items report.now report.now.universe verdicts.now)) }
{
    for k in 0..report.universe.len().min(verdicts.len()) {
        push_comma(text, k)?;
        let label = report.universe.get(k).as_str();
        push_label(alloc, text, report, indexes, label, &verdicts[k])?;
    }
    Ok(())
}

/// Appends a label with its verdict.
fn push_label(
    alloc: Global,
    text: &mut Text,
    report: &Report,
    indexes: &[LineIndex],
    label: &str,
    verdict: &Verdict,
) -> Result<(), Memory>
    requires files { StandInFiles report.now }
    requires rule { NamesRuleBelow (length report.now.rules) verdict.now }
    requires indexes { AreIndexed report.now.files indexes.now }
    ensures { OnOk result (text.new ≡ text.old ++ compact_text (label_data report.now label.now verdict.now)) }
{
    match verdict {
        Verdict::Guaranteed => push_plain(alloc, text, label, "guaranteed"),
        Verdict::Impossible => push_plain(alloc, text, label, "impossible"),
        Verdict::Possible { with, without } => push_possible(alloc, text, label, with, without),
        Verdict::Unresolved {
            construct,
            rule,
            span,
        } => {
            let place = place_in_rule(alloc, report, indexes, Naming::Plain, *rule, span.start)?;
            push_unresolved(alloc, text, label, *construct, place.as_str())
        }
    }
}

/// Appends a label with its verdict, where there is no more to tell.
fn push_plain(alloc: Global, text: &mut Text, label: &str, verdict: &str) -> Result<(), Memory>
    ensures { OnOk result (text.new ≡ text.old ++ compact_text (plain_data label.now verdict.now)) }
{
    let value = plain_value(alloc, label, verdict)?;
    push_value(alloc, text, &value)
}

/// A label with its verdict.
fn plain_value(alloc: Global, label: &str, verdict: &str) -> Result<Value, AllocError>
    ensures { IfOk result (λ value. view value ≡ plain_data label.now verdict.now) }
{
    json!(in alloc; {"label": label, "verdict": verdict})
}

/// Appends a possible label, with the worlds that show it.
fn push_possible(
    alloc: Global,
    text: &mut Text,
    label: &str,
    with: &World,
    without: &World,
) -> Result<(), Memory>
    ensures { OnOk result (text.new ≡ text.old ++ compact_text (possible_data label.now with.now without.now)) }
{
    push_possible_head(alloc, text, label)?;
    push_world(alloc, text, with)?;
    text.push(",\"without\":")?;
    push_world(alloc, text, without)?;
    text.push("}")
}

/// Appends a possible label up to its worlds.
fn push_possible_head(alloc: Global, text: &mut Text, label: &str) -> Result<(), Memory>
    ensures { OnOk result (text.new ≡ text.old ++ possible_head label.now) }
{
    push_text(alloc, text, "{\"label\":", label)?;
    text.push(",\"verdict\":\"possible\",\"with\":")
}

/// Appends an unresolved label, with the construct of this number that stands in the way at a place.
fn push_unresolved(
    alloc: Global,
    text: &mut Text,
    label: &str,
    construct: u8,
    place: &str,
) -> Result<(), Memory>
    ensures { OnOk result (text.new ≡ text.old ++ compact_text (unresolved_data label.now construct place.now)) }
{
    let value = unresolved_value(alloc, label, construct, place)?;
    push_value(alloc, text, &value)
}

/// An unresolved label.
fn unresolved_value(alloc: Global, label: &str, construct: u8, place: &str) -> Result<Value, Memory>
    ensures { IfOk result (λ value. view value ≡ unresolved_data label.now construct place.now) }
{
    let name = format!(in alloc; "O{construct}")?;
    let value =
        json!(in alloc; {"construct": name.as_str(), "label": label, "place": place, "verdict": "unresolved"})?;
    Ok(value)
}
