//! What expressions hold, in themselves or in the rules that they read.
ghost use Rattle.std.specs.Prelude.{◌≡◌, codes, IfOk};
ghost use Rattle.std.specs.List.{list_any};
ghost use Rattle.std.specs.Str.{bytes_eq};
ghost use Rattle.lf_ast.specs.Rules.{rule_tree};
ghost use Rattle.lf_ast.specs.Tree.{tree};
ghost use Rattle.lf_open.specs.Holding.{arguments_of, has_no_argument, has_own_le, has_own_source, is_source, matches_le, names_le};
ghost use Rattle.lf_open.specs.views.Holding.{gives_alone};
ghost use Rattle.lf_open.specs.views.Marks.{marks_tree};

use crate::speaking::speaking;
use lf_ast::{Expr, Function, LabelEffect, Matcher, Rule, selected_name};
use lf_base::Memory;
use lf_forks::NameMarks;
use std::alloc::Global;

/// Whether a call that gives a sample without being given one stands in an expression.
pub(crate) fn has_own_source(alloc: Global, expr: &Expr) -> Result<bool, Memory>
    ensures { IfOk result (λ found. found ≡ has_own_source (tree expr.now)) }
{
    let parts = speaking(alloc, expr)?;
    Ok(any_source(parts.as_slice()))
}

/// Whether a rule names `le`, by a matcher or by a label that it sets.
pub(crate) fn rule_names_le(alloc: Global, rule: &Rule) -> Result<bool, Memory>
    ensures { IfOk result (λ found. found ≡ names_le (rule_tree rule.now)) }
{
    let own = has_own_le(alloc, &rule.expr)?;
    Ok(own || sets_le(rule))
}

/// Whether a selector with a matcher on `le` stands in an expression.
fn has_own_le(alloc: Global, expr: &Expr) -> Result<bool, Memory>
    ensures { IfOk result (λ found. found ≡ has_own_le (tree expr.now)) }
{
    let parts = speaking(alloc, expr)?;
    Ok(any_matching_le(parts.as_slice()))
}

/// Whether one of these is a call that gives a sample without being given one.
fn any_source(parts: &[&Expr]) -> bool
    ensures { result ≡ list_any (λ p. is_source (tree p.now)) parts.now }
{
    parts.iter().any(|part| is_source(part))
}

/// Whether one of these is a selector with a matcher on `le`.
fn any_matching_le(parts: &[&Expr]) -> bool
    ensures { result ≡ list_any (λ p. matches_le (tree p.now)) parts.now }
{
    parts.iter().any(|part| matches_le(part))
}

/// Whether a rule sets the label `le`.
fn sets_le(rule: &Rule) -> bool
    ensures { result ≡ list_any (λ l. bytes_eq l.key (codes "le")) rule.now.labels }
{
    rule.labels
        .as_slice()
        .iter()
        .any(|label| label.key.as_str() == "le")
}

/// Whether an expression is a selector that is marked.
pub(crate) fn is_marked(marks: &NameMarks, expr: &Expr) -> bool
    ensures { result ≡ marks_tree marks.now (tree expr.now) }
{
    match expr {
        Expr::Selector { name, matchers, .. } => {
            marks.has(selected_name(name, matchers.as_slice()))
        }
        _ => false,
    }
}

/// Whether an expression is a call that gives a sample without being given one.
pub(crate) fn is_source(expr: &Expr) -> bool
    ensures { result ≡ is_source (tree expr.now) }
{
    match Function::called_by(expr) {
        Some(function) => gives_alone(function.labels, has_no_argument(expr)),
        None => false,
    }
}

/// Whether an expression is no call with an argument.
fn has_no_argument(expr: &Expr) -> bool
    ensures { result ≡ has_no_argument (arguments_of (tree expr.now)) }
{
    match expr {
        Expr::Call { args, .. } => args.len() == 0,
        _ => true,
    }
}

/// Whether a function of this effect gives a sample without being given one, by whether it has no argument.
fn gives_alone(effect: LabelEffect, bare: bool) -> bool
    ensures { result ≡ gives_alone effect bare }
{
    match effect {
        LabelEffect::Bare | LabelEffect::Absent => true,
        LabelEffect::Date => bare,
        _ => false,
    }
}

/// Whether an expression is a selector with a matcher on `le`.
pub(crate) fn matches_le(expr: &Expr) -> bool
    ensures { result ≡ matches_le (tree expr.now) }
{
    match expr {
        Expr::Selector { matchers, .. } => any_is_on_le(matchers.as_slice()),
        _ => false,
    }
}

/// Whether one of these matchers is on `le`.
fn any_is_on_le(matchers: &[Matcher]) -> bool
    ensures { result ≡ list_any (λ m. bytes_eq m.label (codes "le")) matchers.now }
{
    matchers
        .iter()
        .any(|matcher| matcher.label.as_str() == "le")
}
