//! What is wrong with one selector, or with the pattern of one call.
ghost use Rattle.std.specs.Prelude.{◌≡◌, ◌||◌, [], None, IfOk, option_and_then};
ghost use Rattle.std.specs.List.{list_all, list_any};
ghost use Rattle.std.specs.Str.{bytes_eq};
ghost use Rattle.lf_ast.specs.Functions.{function_named};
ghost use Rattle.lf_ast.specs.Tree.{tree, trees};
ghost use Rattle.lf_classes.specs.reading.Checking.{matcher_fault, matchers_fault, selector_fault, string_fault, unread_fault};
ghost use Rattle.lf_semantics.specs.Parts.{argument_at};
ghost use Rattle.lf_semantics.specs.Passing.{passes};
ghost use Rattle.lf_ast.specs.Selectors.{metric};
ghost use Rattle.lf_semantics.specs.PatternBreaches.{called_with, is_empty_name, names_twice, pattern_argument, placed_string};
ghost use Rattle.lf_semantics.specs.reading.Selectors.{passes_empty};

use crate::{ReadPatterns, passes};
use lf_ast::{Expr, Function, LabelEffect, MatchOp, Matcher};
use lf_base::{Fault, Kind, Memory, Span, Text};
use std::alloc::Global;

/// The breach of a pattern that can't be read.
fn unread_fault(
    alloc: Global,
    known: &ReadPatterns,
    pattern: &Text,
    span: Span,
) -> Result<Option<Fault>, Memory>
    ensures { IfOk result (λ found. found ≡ unread_fault pattern.now span) }
{
    let read = known.is_read(alloc, pattern)?;
    Ok(Fault::when(!read, Kind::BadPattern, span))
}

/// The breach of a matcher, whose value is a pattern behind `=~` and `!~`.
fn matcher_fault(
    alloc: Global,
    known: &ReadPatterns,
    matcher: &Matcher,
) -> Result<Option<Fault>, Memory>
    ensures { IfOk result (λ found. found ≡ matcher_fault matcher.now) }
{
    match matcher.op {
        MatchOp::Equal | MatchOp::NotEqual => Ok(None),
        MatchOp::Matches | MatchOp::NotMatches => {
            unread_fault(alloc, known, &matcher.value, matcher.value_span)
        }
    }
}

/// Of the breaches of matchers the one that is told.
fn matchers_fault(
    alloc: Global,
    known: &ReadPatterns,
    matchers: &[Matcher],
) -> Result<Option<Fault>, Memory>
    ensures { IfOk result (λ found. found ≡ matchers_fault None matchers.now) }
{
    let mut fault = None;
    for matcher in matchers {
        let found = matcher_fault(alloc, known, matcher)?;
        fault = Fault::first(fault, found);
    }
    Ok(fault)
}

/// Whether a selector has no name before its braces, or the empty one.
fn is_empty_name(name: &Option<Text>) -> bool
    ensures { result ≡ is_empty_name name.now }
{
    match name {
        None => true,
        Some(name) => name.as_str() == "",
    }
}

/// Whether a matcher passes the empty text.
fn passes_empty(alloc: Global, matcher: &Matcher) -> Result<bool, Memory>
    ensures { IfOk result (λ found. found ≡ passes matcher.now.op matcher.now.value []) }
{
    let empty = Text::of(alloc, "")?;
    passes(alloc, matcher, &empty)
}

/// Whether each matcher passes the empty text.
fn all_pass_empty(alloc: Global, matchers: &[Matcher]) -> Result<bool, Memory>
    ensures { IfOk result (λ found. found ≡ list_all (λ m. passes m.op m.value []) matchers.now) }
{
    for matcher in matchers {
        if !passes_empty(alloc, matcher)? {
            return Ok(false);
        }
    }
    Ok(true)
}

/// Whether there is a matcher on the metric name.
fn has_metric(matchers: &[Matcher]) -> bool
    ensures { result ≡ list_any (λ m. bytes_eq m.label metric) matchers.now }
{
    matchers.iter().any(|m| m.label.as_str() == "__name__")
}

/// Whether a selector has a name before its braces, and a matcher on the metric name.
fn names_twice(name: &Option<Text>, matchers: &[Matcher]) -> bool
    ensures { result ≡ names_twice name.now matchers.now }
{
    name.is_some() && has_metric(matchers)
}

/// Whether a selector names no metric, or names it twice.
fn is_bad_selector(alloc: Global, name: &Option<Text>, matchers: &[Matcher]) -> Result<bool, Memory>
    ensures { IfOk result (λ found. found ≡ (names_twice name.now matchers.now || passes_empty name.now matchers.now)) }
{
    if names_twice(name, matchers) {
        Ok(true)
    } else if is_empty_name(name) {
        all_pass_empty(alloc, matchers)
    } else {
        Ok(false)
    }
}

/// Of the breaches of a selector the one that is told.
#[inline(never)]
pub fn selector_fault(
    alloc: Global,
    known: &ReadPatterns,
    name: &Option<Text>,
    matchers: &[Matcher],
    span: Span,
) -> Result<Option<Fault>, Memory>
    ensures { IfOk result (λ found. found ≡ selector_fault name.now matchers.now span) }
{
    let unread = matchers_fault(alloc, known, matchers)?;
    let bad = is_bad_selector(alloc, name, matchers)?;
    Ok(Fault::first(unread, Fault::when(bad, Kind::BadSelector, span)))
}

/// The breach of a string that is a pattern, which may stand in parentheses.
fn string_fault(alloc: Global, known: &ReadPatterns, expr: &Expr) -> Result<Option<Fault>, Memory>
    ensures { IfOk result (λ found. found ≡ string_fault (placed_string (tree expr.now))) }
{
    match expr {
        Expr::Str { text, span } => unread_fault(alloc, known, text, *span),
        Expr::Paren { of, .. } => string_fault(alloc, known, of),
        _ => Ok(None),
    }
}

/// The breach of the fifth argument, if that is a string.
fn fifth_fault(alloc: Global, known: &ReadPatterns, args: &[Expr]) -> Result<Option<Fault>, Memory>
    ensures { IfOk result (λ found. found ≡ string_fault (option_and_then placed_string (argument_at (trees args.now) 4))) }
{
    match args.get(4) {
        Some(pattern) => string_fault(alloc, known, pattern),
        None => Ok(None),
    }
}

/// The breach of the pattern among arguments; only `label_replace` takes one, and it is the fifth.
fn argument_fault(
    alloc: Global,
    known: &ReadPatterns,
    labels: LabelEffect,
    args: &[Expr],
) -> Result<Option<Fault>, Memory>
    ensures { IfOk result (λ found. found ≡ string_fault (pattern_argument labels (trees args.now))) }
{
    match labels {
        LabelEffect::LabelReplace => fifth_fault(alloc, known, args),
        _ => Ok(None),
    }
}

/// The breach of the pattern that a call takes.
#[inline(never)]
pub fn call_fault(
    alloc: Global,
    known: &ReadPatterns,
    name: &str,
    args: &[Expr],
) -> Result<Option<Fault>, Memory>
    ensures { IfOk result (λ found. found ≡ string_fault (called_with (function_named name.now) (trees args.now))) }
{
    match Function::named(name) {
        Some(function) => argument_fault(alloc, known, function.labels, args),
        None => Ok(None),
    }
}
