//! A label followed through functions and aggregations, by what they do to labels.
ghost use Rattle.std.specs.Prelude.{◌≡◌, IfOk, codes, cond, option_and_then};
ghost use Rattle.std.specs.Option.{option_map};
ghost use Rattle.std.specs.Str.{bytes_eq};
ghost use Rattle.lf_ast.specs.Tree.{trees};
ghost use Rattle.lf_ast.specs.declared.expr.Grouping.{Grouping};
ghost use Rattle.lf_semantics.specs.Parts.{sought_in};
ghost use Rattle.lf_trials.specs.Follow.{bucket_text, counted_text, follow_effect, grouped_text, lost, sought_text, without_name};

use crate::absence::sought_text;
use crate::told::{empty, lost};
use lf_ast::{Expr, Grouping, LabelEffect, text_at};
use lf_base::{Memory, Text};
use lf_nodes::{is_grouped_by, is_metric};
use std::alloc::Global;

/// The text that a label has behind a function or an aggregation with this effect, by the text on its operand.
pub fn effect(
    alloc: Global,
    label: &str,
    effect: LabelEffect,
    grouping: &Grouping,
    args: &[Expr],
    operand: Option<Text>,
) -> Result<Option<Text>, Memory>
    ensures { IfOk result (λ text. text ≡ follow_effect label.now effect grouping.now (trees args.now) operand) }
{
    match effect {
        LabelEffect::Maps => Ok(nameless(alloc, label, operand)),
        LabelEffect::Keeps => Ok(operand),
        LabelEffect::Groups => Ok(grouped(alloc, label, grouping, operand)),
        LabelEffect::CountValues => counted(alloc, label, grouping, text_at(args, 0), operand),
        LabelEffect::Date => Ok(dated(alloc, label, args, operand)),
        LabelEffect::Absent => sought(alloc, label, args),
        LabelEffect::LabelReplace => Ok(operand),
        LabelEffect::LabelJoin => Ok(operand),
        LabelEffect::HistogramQuantile => Ok(bucket(alloc, label, operand)),
        LabelEffect::Bare => Ok(lost(alloc)),
    }
}

/// The text of a label where the metric name is dropped.
pub fn nameless(alloc: Global, label: &str, text: Option<Text>) -> Option<Text>
    ensures { result ≡ option_map (without_name label.now) text }
{
    match text {
        Some(text) => Some(without_name(alloc, label, text)),
        None => None,
    }
}

/// The text, but none for the metric name.
fn without_name(alloc: Global, label: &str, text: Text) -> Text
    ensures { result ≡ without_name label.now text }
{
    if is_metric(label) { empty(alloc) } else { text }
}

/// The text of a label behind a grouping.
fn grouped(alloc: Global, label: &str, grouping: &Grouping, text: Option<Text>) -> Option<Text>
    ensures { result ≡ option_map (grouped_text label.now grouping.now) text }
{
    match text {
        Some(text) => Some(grouped_text(alloc, label, grouping, text)),
        None => None,
    }
}

/// The text, but none for a label that the grouping takes out.
fn grouped_text(alloc: Global, label: &str, grouping: &Grouping, text: Text) -> Text
    ensures { result ≡ grouped_text label.now grouping.now text }
{
    if is_grouped_by(grouping, label) {
        text
    } else {
        empty(alloc)
    }
}

/// The text of a label behind `count_values`, which sets a label of its own.
fn counted(
    alloc: Global,
    label: &str,
    grouping: &Grouping,
    own: &str,
    text: Option<Text>,
) -> Result<Option<Text>, Memory>
    ensures { IfOk result (λ told. told ≡ option_map (counted_text label.now grouping.now own.now) text) }
{
    match text {
        Some(text) => Ok(Some(counted_text(alloc, label, grouping, own, text)?)),
        None => Ok(None),
    }
}

/// The text, but `1` for the label that `count_values` sets, and none for another that the grouping takes out.
fn counted_text(
    alloc: Global,
    label: &str,
    grouping: &Grouping,
    own: &str,
    text: Text,
) -> Result<Text, Memory>
    ensures { IfOk result (λ told. told ≡ counted_text label.now grouping.now own.now text) }
{
    if label == own {
        Text::of(alloc, "1")
    } else {
        Ok(grouped_text(alloc, label, grouping, text))
    }
}

/// The text of a label behind a function of dates: without an argument it speaks of now.
fn dated(alloc: Global, label: &str, args: &[Expr], text: Option<Text>) -> Option<Text>
    ensures { (grouping : Grouping) → result ≡ follow_effect label.now LabelEffect.Date grouping (trees args.now) text }
{
    match args {
        [] => lost(alloc),
        [_, ..] => nameless(alloc, label, text),
    }
}

/// The text of a label behind `absent`.
fn sought(alloc: Global, label: &str, args: &[Expr]) -> Result<Option<Text>, Memory>
    ensures { IfOk result (λ told. told ≡ Some (sought_text label.now (sought_in (trees args.now)))) }
{
    let text = Text::of(alloc, sought_text(args, label))?;
    Ok(Some(text))
}

/// The text of a label behind `histogram_quantile`: `le` has to be `+Inf`.
fn bucket(alloc: Global, label: &str, text: Option<Text>) -> Option<Text>
    ensures { result ≡ option_and_then (bucket_text label.now) text }
{
    match text {
        Some(text) => bucket_text(alloc, label, text),
        None => None,
    }
}

/// The text behind `histogram_quantile`, which drops `le` and the metric name.
fn bucket_text(alloc: Global, label: &str, text: Text) -> Option<Text>
    ensures { result ≡ bucket_text label.now text }
{
    if label == "le" {
        last_bucket(alloc, &text)
    } else {
        Some(without_name(alloc, label, text))
    }
}

/// No text, if the text of `le` is `+Inf`.
fn last_bucket(alloc: Global, text: &Text) -> Option<Text>
    ensures { result ≡ cond (bytes_eq text.now (codes "+Inf")) lost None }
{
    if text.as_str() == "+Inf" {
        lost(alloc)
    } else {
        None
    }
}
