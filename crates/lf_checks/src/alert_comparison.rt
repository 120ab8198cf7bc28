//! alert/comparison: an alert whose expression compares nothing.
ghost use Rattle.std.specs.Prelude.{◌≡◌, ◌||◌, false, map, IfOk};
ghost use Rattle.std.specs.List.{list_any};
ghost use Rattle.std.specs.Option.{option_map};
ghost use Rattle.lf_ast.specs.Functions.{signature_of};
ghost use Rattle.lf_ast.specs.Rules.{rule_tree};
ghost use Rattle.lf_ast.specs.Tree.{parts_of, tree, nodes};
ghost use Rattle.lf_semantics.specs.Parts.{given_by, takes_samples};
ghost use Rattle.lf_checks.specs.AlertComparison.{IsFound, is_absent_function, is_conditional, joins_conditions, looks_for_absence};
ghost use Rattle.lf_checks.specs.views.Conditions.{counts, condition_of};
ghost use Rattle.lf_checks.specs.views.Shown.{ListsAlone};

use crate::case::{Case, found_if};
use lf_ast::walk::{Fold, Parts, fold_up};
use lf_ast::{
    Expr, ExprType, Finding, Function, LabelEffect, Matching, Op, Rule, joined, selected,
};
use lf_base::Memory;
use lf_nodes::{is_filter, takes_samples};
use lf_parts::{Copied, fold_parts};
use std::alloc::Global;

/// An alert whose expression isn't conditional. `compares` says whether it is.
pub(crate) fn alert_comparison(
    alloc: Global,
    rule: &Rule,
    compares: bool,
) -> Result<Vec<Finding>, Memory>
    requires { compares ≡ is_conditional (tree rule.now.expr) }
    ensures { IfOk result (λ found. ListsAlone (IsFound (rule_tree rule.now)) found.items) }
{
    let is_found = rule.alert && !compares;
    found_if(alloc, is_found, Case::ComparesNothing, rule.expr_span, "")
}

/// What is told of an expression at once: whether it is conditional, and the type that its form tells.
#[derive(Clone, Copy, Drop)]
pub(crate) struct Condition {
    pub(crate) conditional: bool,
    pub(crate) form: ExprType,
}

/// Whether an expression compares by its form, or asks for samples that are lacking; and its type.
pub(crate) fn condition_of(alloc: Global, expr: &Expr) -> Result<Condition, Memory>
    ensures { IfOk result (λ made. made ≡ condition_of (tree expr.now)) }
{
    fold_up(alloc, &Conditions, expr)
}

/// The same of an expression and of each part in it, each before its own parts.
pub(crate) fn part_conditions(alloc: Global, expr: &Expr) -> Result<Vec<Condition>, Memory>
    ensures { IfOk result (λ conditions. conditions.items ≡ map condition_of (nodes (tree expr.now))) }
{
    fold_parts(alloc, &Conditions, expr)
}

impl Copied for Condition {
    fn copied(&self, _alloc: Global) -> Result<Condition, Memory> {
        Ok(*self)
    }
}

impl Condition {
    /// Whether it is conditional as an operand: where it is a vector or a range vector.
    fn counts(&self) -> bool
        ensures { result ≡ counts self.now }
    {
        takes_samples(self.form) && self.conditional
    }
}

/// Tells of an expression what its parts tell.
struct Conditions;

impl Fold for Conditions {
    type Value = Condition;

    type Note = ();

    ghost use Rattle.lf_ast.specs.declared.walk.choosing.Parts.TheVariants.{All};
    ghost use Rattle.lf_checks.specs.views.Conditions.{condition_of};

    ghost value = { λ conditions e. condition_of e };

    ghost needed = { λ conditions e. All };

    ghost notes = { λ e note. Unit {0} };

    fn enter(&self, _expr: &Expr) -> (Parts, ()) {
        (Parts::All, ())
    }

    fn step(
        &self,
        _alloc: Global,
        expr: &Expr,
        _note: (),
        values: Vec<Condition>,
    ) -> Result<Condition, Memory>
        requires { values.items ≡ map condition_of (parts_of (tree expr.now)) }
        ensures { IfOk result (λ made. made ≡ condition_of (tree expr.now)) }
    {
        Ok(judged(expr, values.as_slice()))
    }
}

/// What is told of an expression, from what is told of its parts.
fn judged(expr: &Expr, parts: &[Condition]) -> Condition
    requires { parts.now ≡ map condition_of (parts_of (tree expr.now)) }
    ensures { result ≡ condition_of (tree expr.now) }
{
    match expr {
        Expr::Number { .. } => never(ExprType::Scalar),
        Expr::Str { .. } => never(ExprType::Str),
        Expr::Selector { sight, .. } => never(selected(&sight.range)),
        Expr::Subquery { .. } => Condition {
            conditional: parts[0].conditional,
            form: ExprType::Range,
        },
        Expr::Paren { .. } => parts[0],
        Expr::Unary { .. } => Condition {
            conditional: parts[0].counts(),
            form: parts[0].form,
        },
        Expr::Binary { op, modifier, .. } => Condition {
            conditional: joins_conditions(*op, modifier, parts[0].counts(), parts[1].counts()),
            form: joined(parts[0].form, parts[1].form),
        },
        Expr::Call { name, .. } => called(&Function::named(name.as_str()), parts),
        Expr::Aggregate { .. } => Condition {
            conditional: any_counts(parts),
            form: ExprType::Vector,
        },
    }
}

/// What is told of an expression of a type that has no parts.
fn never(form: ExprType) -> Condition
    ensures conditional { result.conditional ≡ false }
    ensures form { result.form ≡ form }
{
    Condition {
        conditional: false,
        form,
    }
}

/// Whether an operator is conditional between two sides.
fn joins_conditions(op: Op, matching: &Matching, left: bool, right: bool) -> bool
    ensures { result ≡ joins_conditions op matching.now left right }
{
    match op {
        Op::Unless => true,
        Op::Or => left && right,
        _ => is_filter(op, matching) || left || right,
    }
}

/// What is told of a call of a function, if there is one, with these arguments.
fn called(function: &Option<Function>, args: &[Condition]) -> Condition
    ensures conditional { result.conditional ≡ (is_absent_function (option_map signature_of function.now) || list_any counts args.now) }
    ensures form { result.form ≡ given_by (option_map signature_of function.now) }
{
    match function {
        Some(function) => Condition {
            conditional: looks_for_absence(function.labels) || any_counts(args),
            form: function.gives,
        },
        None => Condition {
            conditional: any_counts(args),
            form: ExprType::Vector,
        },
    }
}

/// Whether a function is `absent` or `absent_over_time`.
fn looks_for_absence(labels: LabelEffect) -> bool
    ensures { result ≡ looks_for_absence labels }
{
    match labels {
        LabelEffect::Absent => true,
        _ => false,
    }
}

/// Whether an argument is conditional as an operand.
fn any_counts(args: &[Condition]) -> bool
    ensures { result ≡ list_any counts args.now }
{
    args.iter().any(|arg| arg.counts())
}
