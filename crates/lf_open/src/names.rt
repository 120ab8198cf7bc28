//! What is open at a selector by the name that it says.
ghost use Rattle.std.specs.Prelude.{◌≡◌, ◌↔◌, not, IfOk, IsTrue};
ghost use Rattle.std.specs.List.{list_any};
ghost use Rattle.lf_ast.specs.Tree.{tree};
ghost use Rattle.lf_semantics.specs.Grouped.{is_metric};
ghost use Rattle.lf_open.specs.Constructs.{NarrowsFork, SaysCyclicName};
ghost use Rattle.lf_open.specs.views.Known.{IsKnown, rules_of};
ghost use Rattle.lf_open.specs.views.Names.{narrows};

use crate::known::RuleReadings;
use lf_ast::{Expr, Matcher, selected_name};
use lf_base::Memory;
use lf_deps::cyclic_of;
use std::alloc::Global;

/// Whether an expression is a selector of a name that is read in its own making.
pub(crate) fn says_cyclic_name(known: &RuleReadings<'_>, expr: &Expr) -> bool
    requires { IsKnown known.now }
    ensures { IsTrue result ↔ SaysCyclicName (rules_of known.now) (tree expr.now) }
{
    match expr {
        Expr::Selector { name, matchers, .. } => match selected_name(name, matchers.as_slice()) {
            Some(name) => cyclic_of(known.sources, known.graph, name),
            None => false,
        },
        _ => false,
    }
}

/// Whether an expression is a selector with a matcher on another label than the metric name, of a name that several rules record or that has a fork in its making.
pub(crate) fn narrows_fork(
    known: &RuleReadings<'_>,
    alloc: Global,
    expr: &Expr,
) -> Result<bool, Memory>
    requires { IsKnown known.now }
    ensures { IfOk result (λ found. IsTrue found ↔ NarrowsFork (rules_of known.now) (tree expr.now)) }
{
    if narrows(expr) {
        known.forks.is_in(alloc, expr)
    } else {
        Ok(false)
    }
}

/// Whether an expression is a selector that says a name and has a matcher on another label than the metric name.
fn narrows(expr: &Expr) -> bool
    ensures { result ≡ narrows (tree expr.now) }
{
    match expr {
        Expr::Selector { name, matchers, .. } => {
            selected_name(name, matchers.as_slice()).is_some() && any_narrows(matchers.as_slice())
        }
        _ => false,
    }
}

/// Whether one of these matchers is on another label than the metric name.
fn any_narrows(matchers: &[Matcher]) -> bool
    ensures { result ≡ list_any (λ m. not (is_metric m.label)) matchers.now }
{
    matchers
        .iter()
        .any(|matcher| matcher.label.as_str() != "__name__")
}
