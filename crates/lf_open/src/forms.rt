//! What is open at an expression by its own form.
ghost use Rattle.std.specs.Prelude.{◌≡◌, ◌↔◌, false, List, true, IfOk, IsTrue, OnOk};
ghost use Rattle.lf_laws.specs.Gaining.{OfSome};
ghost use Rattle.lf_ast.specs.Rules.{RuleTree};
ghost use Rattle.lf_ast.specs.Tree.{tree, trees};
ghost use Rattle.lf_semantics.specs.Passing.{is_plain};
ghost use Rattle.lf_semantics.specs.PatternBreaches.{takes_pattern};
ghost use Rattle.lf_open.specs.Constructs.{MakesLabel, SaysNoName, effect_of};
ghost use Rattle.lf_open.specs.Holding.{arguments_of};
ghost use Rattle.lf_open.specs.declared.construct.Construct.TheVariants.{ComplexPattern};
ghost use Rattle.lf_open.specs.views.Adding.{Adds, IsComplexAt, IsOf};

use crate::adding::add_if;
use crate::construct::Construct;
use crate::open_at::OpenAt;
use lf_ast::{Expr, Function, LabelEffect, MatchOp, Matcher, selected_name};
use lf_base::Memory;
use lf_pattern::plain_alternatives;
use std::alloc::Global;

/// What becomes of labels, if an expression is a call of a function or an aggregation.
pub(crate) fn effect_of(expr: &Expr) -> Option<LabelEffect>
    ensures { result ≡ effect_of (tree expr.now) }
{
    match Function::called_by(expr) {
        Some(function) => Some(function.labels),
        None => None,
    }
}

/// The arguments of a call, and none of any other expression.
pub(crate) fn arguments_of(expr: &Expr) -> &[Expr]
    ensures { trees result.now ≡ arguments_of (tree expr.now) }
{
    match expr {
        Expr::Call { args, .. } => args.as_slice(),
        _ => &[],
    }
}

/// Whether an expression is a selector that says no name.
pub(crate) fn says_no_name(expr: &Expr) -> bool
    ensures { (rules : List RuleTree) → IsTrue result ↔ SaysNoName rules (tree expr.now) }
{
    match expr {
        Expr::Selector { name, matchers, .. } => {
            selected_name(name, matchers.as_slice()).is_none()
        }
        _ => false,
    }
}

/// Whether an expression makes the text of a label.
pub(crate) fn makes_label(expr: &Expr) -> bool
    ensures { (rules : List RuleTree) → IsTrue result ↔ MakesLabel rules (tree expr.now) }
{
    match effect_of(expr) {
        Some(LabelEffect::LabelReplace | LabelEffect::LabelJoin | LabelEffect::CountValues) => true,
        _ => false,
    }
}

/// Puts the patterns of a selector that aren't plain behind others.
pub(crate) fn add_patterns(
    alloc: Global,
    rule: u32,
    expr: &Expr,
    found: &mut Vec<OpenAt>,
) -> Result<(), Memory>
    ensures { (rules : List RuleTree) → OnOk result (Adds (IsOf rules ComplexPattern rule (tree expr.now)) found.old.items found.new.items) }
{
    match expr {
        Expr::Selector { matchers, .. } => add_complex(alloc, rule, matchers.as_slice(), found),
        _ => Ok(()),
    }
}

/// Puts those of these matchers whose pattern isn't plain behind others.
fn add_complex(
    alloc: Global,
    rule: u32,
    matchers: &[Matcher],
    found: &mut Vec<OpenAt>,
) -> Result<(), Memory>
    ensures { OnOk result (Adds (OfSome (IsComplexAt rule) matchers.now) found.old.items found.new.items) }
{
    for matcher in matchers {
        let complex = is_complex(alloc, matcher)?;
        add_if(
            complex,
            Construct::ComplexPattern,
            rule,
            matcher.value_span,
            found,
        )?;
    }
    Ok(())
}

/// Whether a matcher is by a pattern that isn't plain.
fn is_complex(alloc: Global, matcher: &Matcher) -> Result<bool, Memory>
    ensures { IfOk result (λ found. IsTrue found ↔ ((takes_pattern matcher.now.op ≡ true) × (is_plain matcher.now.value ≡ false))) }
{
    match matcher.op {
        MatchOp::Equal | MatchOp::NotEqual => Ok(false),
        MatchOp::Matches | MatchOp::NotMatches => {
            let alternatives = plain_alternatives(alloc, &matcher.value)?;
            Ok(alternatives.is_none())
        }
    }
}
