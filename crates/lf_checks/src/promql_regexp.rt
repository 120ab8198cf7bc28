//! promql/regexp: patterns of matchers that are one plain text, or that anchor themselves.
ghost use Rattle.std.specs.Prelude.{◌≡◌, ◌⊎◌, ◌↔◌, IsTrue, IfOk, OnOk};
ghost use Rattle.lf_laws.specs.Gaining.{OfSome};
ghost use Rattle.lf_ast.specs.Rules.{rule_tree};
ghost use Rattle.lf_ast.specs.Tree.{nodes, tree};
ghost use Rattle.lf_ast.specs.views.Walks.{trees_at};
ghost use Rattle.lf_checks.specs.PromqlRegexp.{BeginsAnchored, EndsAnchored, IsFound, IsOneText};
ghost use Rattle.lf_checks.specs.views.Adding.{Adds};
ghost use Rattle.lf_checks.specs.views.Patterns.{IsOfMatcher, IsOfPart};
ghost use Rattle.lf_checks.specs.views.Shown.{ListsAlone};

use crate::case::Case;
use crate::telling::tell_if;
use lf_ast::{Expr, Finding, Matcher, Rule};
use lf_base::{Memory, Text};
use lf_nodes::takes_pattern;
use lf_pattern::plain_alternatives;
use std::alloc::Global;

/// What the check finds of a rule, by its expression and all parts in it.
pub(crate) fn promql_regexp(
    alloc: Global,
    rule: &Rule,
    parts: &[&Expr],
) -> Result<Vec<Finding>, Memory>
    requires { trees_at parts.now ≡ nodes (rule_tree rule.now).expr }
    ensures { IfOk result (λ found. ListsAlone (IsFound (rule_tree rule.now)) found.items) }
{
    let mut found = Vec::new(alloc);
    for part in parts {
        judge_part(alloc, part, &mut found)?;
    }
    Ok(found)
}

/// Tells what is found of the matchers of a selector, and nothing of any other part.
fn judge_part(alloc: Global, part: &Expr, found: &mut Vec<Finding>) -> Result<(), Memory>
    ensures { OnOk result (Adds (IsOfPart (tree part.now)) found.old.items found.new.items) }
{
    match part {
        Expr::Selector { matchers, .. } => judge_matchers(alloc, matchers.as_slice(), found),
        _ => Ok(()),
    }
}

/// Tells what is found of matchers.
fn judge_matchers(
    alloc: Global,
    matchers: &[Matcher],
    found: &mut Vec<Finding>,
) -> Result<(), Memory>
    ensures { OnOk result (Adds (OfSome IsOfMatcher matchers.now) found.old.items found.new.items) }
{
    for matcher in matchers {
        judge_matcher(alloc, matcher, found)?;
    }
    Ok(())
}

/// Tells what is found of a matcher, if it takes a pattern.
fn judge_matcher(alloc: Global, matcher: &Matcher, found: &mut Vec<Finding>) -> Result<(), Memory>
    ensures { OnOk result (Adds (IsOfMatcher matcher.now) found.old.items found.new.items) }
{
    if !takes_pattern(matcher.op) {
        return Ok(());
    }
    let span = matcher.value_span;
    let plain = is_one_text(alloc, &matcher.value)?;
    tell_if(alloc, plain, Case::PlainPattern, span, "", found)?;
    let anchored = is_anchored(matcher.value.as_str().as_bytes());
    tell_if(alloc, anchored, Case::AnchoredPattern, span, "", found)
}

/// Whether a pattern is plain and has one alternative.
fn is_one_text(alloc: Global, pattern: &Text) -> Result<bool, Memory>
    ensures { IfOk result (λ plain. IsTrue plain ↔ IsOneText pattern.now) }
{
    match plain_alternatives(alloc, pattern)? {
        Some(alternatives) => Ok(alternatives.len() == 1),
        None => Ok(false),
    }
}

/// Whether a pattern begins with `^`, or ends with `$` before which no backslash stands.
fn is_anchored(pattern: &[u8]) -> bool
    ensures { IsTrue result ↔ (BeginsAnchored pattern.now ⊎ EndsAnchored pattern.now) }
{
    begins_anchored(pattern) || ends_anchored(pattern)
}

/// Whether a pattern begins with `^`.
fn begins_anchored(pattern: &[u8]) -> bool
    ensures { IsTrue result ↔ BeginsAnchored pattern.now }
{
    !pattern.is_empty() && pattern[0] == b'^'
}

/// Whether a pattern ends with `$`, before which no backslash stands.
fn ends_anchored(pattern: &[u8]) -> bool
    ensures { IsTrue result ↔ EndsAnchored pattern.now }
{
    let count = pattern.len();
    count > 0 && pattern[count - 1] == b'$' && (count == 1 || pattern[count - 2] != b'\\')
}
