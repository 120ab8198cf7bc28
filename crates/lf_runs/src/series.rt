//! Series as PromQL writes them, as `foo{env="p", job="v1"}`.
ghost use Rattle.std.specs.Prelude.{◌≡◌, ◌+◌, length, IfOk};
ghost use Rattle.std.specs.List.Sorted.{IsNonDecreasing};

use crate::run::{no_memory, refused};
use anyhow::{Result, anyhow};
use lf_ast::{Expr, LabelSet, MatchOp, Matcher};
use lf_base::{Memory, Refusal, Seq, Text};
use lf_lex::lex;
use lf_parse::parse;
use std::alloc::{AllocError, Global};

/// The labels that a line says, which is read as a selector with `=` alone.
pub fn read_series(alloc: Global, line: &str) -> Result<LabelSet> {
    let text = Text::of(alloc, line).map_err(no_memory)?;
    let expr = read_expr(alloc, &text).map_err(refused)?;
    match labels_of(alloc, &expr).map_err(no_memory)? {
        Some(labels) => Ok(labels),
        None => Err(anyhow!("this is no series: {line}")),
    }
}

/// The expression that a text is. Its spans say nothing.
fn read_expr(alloc: Global, text: &Text) -> Result<Expr, Refusal> {
    let from = no_places(alloc, text)?;
    let tokens = lex(alloc, text, &from)?;
    parse(alloc, &tokens, 0)
}

/// The same place for each byte of a text and for its end.
fn no_places(alloc: Global, text: &Text) -> Result<Seq<u32>, Memory>
    ensures count { IfOk result (λ from. length from ≡ length text.now + 1) }
    ensures rises { IfOk result (λ from. IsNonDecreasing from) }
{
    let mut places = vec![in alloc; 0; text.len()]?;
    places.push(0u32)?;
    Ok(Seq::from_vec(places))
}

/// The name and the matchers of a selector as labels. There are none where a matcher isn't `=`, or the expression is no selector.
fn labels_of(alloc: Global, expr: &Expr) -> Result<Option<LabelSet>, Memory> {
    match expr {
        Expr::Selector { name, matchers, .. } => named(alloc, name, matchers.as_slice()),
        _ => Ok(None),
    }
}

/// The same by the parts of the selector.
fn named(
    alloc: Global,
    name: &Option<Text>,
    matchers: &[Matcher],
) -> Result<Option<LabelSet>, Memory> {
    let mut labels = LabelSet::new(alloc);
    if let Some(name) = name {
        labels.set(&Text::of(alloc, "__name__")?, name)?;
    }
    for matcher in matchers {
        if matcher.op != MatchOp::Equal {
            return Ok(None);
        }
        labels.set(&matcher.label, &matcher.value)?;
    }
    Ok(Some(labels))
}

/// Writes labels as a series. Texts stand as they are.
pub fn write_series(out: &mut String, labels: &LabelSet) -> Result<(), AllocError> {
    if let Some(name) = labels.get("__name__") {
        out.push_str(name.as_str())?;
    }
    out.push('{')?;
    let mut separator = "";
    for place in 0..labels.len() {
        let (label, text) = labels.pair(place);
        if label.as_str() != "__name__" {
            write!(out, "{separator}{}=\"{}\"", label.as_str(), text.as_str())?;
            separator = ", ";
        }
    }
    out.push('}')
}
