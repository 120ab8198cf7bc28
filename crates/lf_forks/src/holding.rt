//! Which expressions hold a fork.
ghost use Rattle.std.specs.Prelude.{◌≡◌, ◌∷◌, [], length, map, IfOk};
ghost use Rattle.std.specs.List.{list_any};
ghost use Rattle.lf_ast.specs.Tree.{parts_of, tree, nodes};
ghost use Rattle.lf_trials.specs.Forks.{has_passing, is_or};
ghost use Rattle.lf_forks.specs.views.Holding.{beside, called, holds};
ghost use Rattle.lf_forks.specs.views.NameMarks.{has_mark};

use crate::name_marks::NameMarks;
use lf_ast::walk::{Fold, Parts, fold_up};
use lf_ast::{Expr, Op, selected_name};
use lf_base::Memory;
use lf_nodes::{both, gives_scalar, the_only};
use lf_parts::{Copied, fold_parts};
use std::alloc::Global;
use std::marker::Model;

/// Whether an `or` or a selector that is marked stands in an expression.
pub(crate) fn holds(alloc: Global, marks: &NameMarks, expr: &Expr) -> Result<bool, Memory>
    ensures { IfOk result (λ found. found ≡ has_passing (has_mark marks.now) (tree expr.now)) }
{
    let held = fold_up(alloc, &Holding { marks }, expr)?;
    Ok(held.found)
}

/// For an expression and all parts in it, each before those of its own parts, whether it is a scalar, and whether an `or` or a selector that is marked stands in it.
pub(crate) fn hold_each(alloc: Global, marks: &NameMarks, expr: &Expr) -> Result<Vec<Held>, Memory>
    ensures { IfOk result (λ held. held.items ≡ map (holds marks.now) (nodes (tree expr.now))) }
{
    fold_parts(alloc, &Holding { marks }, expr)
}

/// What is told of an expression: whether it is a scalar, and whether something is found in it.
#[derive(Drop)]
pub struct Held {
    pub scalar: bool,
    pub found: bool,
}

impl Copied for Held {
    fn copied(&self, _alloc: Global) -> Result<Held, Memory> {
        Ok(Held {
            scalar: self.scalar,
            found: self.found,
        })
    }
}

/// Tells of an expression what is told of its parts.
#[derive(Drop)]
struct Holding<'a> {
    marks: &'a NameMarks,
}

impl<'a> Model for Holding<'a> {
    ghost use Rattle.lf_forks.specs.views.NameMarks.{NameMarks};

    ghost Value = { NameMarks };

    ghost view = { λ h. h.marks.now };
}

impl<'a> Fold for Holding<'a> {
    type Value = Held;

    type Note = ();

    ghost use Rattle.lf_ast.specs.declared.walk.choosing.Parts.TheVariants.{All};
    ghost use Rattle.lf_forks.specs.views.Holding.{holds};

    ghost value = { λ h e. holds h e };

    ghost needed = { λ h e. All };

    ghost notes = { λ e note. Unit {0} };

    fn enter(&self, _expr: &Expr) -> (Parts, ()) {
        (Parts::All, ())
    }

    fn step(
        &self,
        _alloc: Global,
        expr: &Expr,
        _note: (),
        values: Vec<Held>,
    ) -> Result<Held, Memory>
        requires { values.items ≡ map (holds self.now) (parts_of (tree expr.now)) }
        ensures { IfOk result (λ made. made ≡ holds self.now (tree expr.now)) }
    {
        Ok(told_of(self.marks, expr, values))
    }
}

/// What is told of an expression, by what is told of its parts.
fn told_of(marks: &NameMarks, expr: &Expr, parts: Vec<Held>) -> Held
    requires { parts.items ≡ map (holds marks.now) (parts_of (tree expr.now)) }
    ensures { result ≡ holds marks.now (tree expr.now) }
{
    match expr {
        Expr::Number { .. } => Held {
            scalar: true,
            found: false,
        },
        Expr::Str { .. } => Held {
            scalar: false,
            found: false,
        },
        Expr::Selector { name, matchers, .. } => Held {
            scalar: false,
            found: marks.has(selected_name(name, matchers.as_slice())),
        },
        Expr::Subquery { .. } => Held {
            scalar: false,
            found: the_only(parts).found,
        },
        Expr::Paren { .. } | Expr::Unary { .. } => the_only(parts),
        Expr::Binary { op, .. } => beside(*op, parts),
        Expr::Call { name, .. } => called(gives_scalar(name.as_str()), parts),
        Expr::Aggregate { .. } => called(false, parts),
    }
}

/// What is told of an operator, by what is told of its sides: two scalars give a scalar, and within one nothing is looked at.
fn beside(op: Op, sides: Vec<Held>) -> Held
    requires { length sides.items ≡ 2 }
    ensures { (l r : Held) → sides.items ≡ l ∷ r ∷ [] → result ≡ beside op l r }
{
    let (left, right) = both(sides);
    let scalar = left.scalar && right.scalar;
    Held {
        scalar,
        found: !scalar && (is_or(op) || (left.found || right.found)),
    }
}

/// What is told of a call or an aggregation, by whether it is a scalar and by what is told of its arguments.
fn called(scalar: bool, args: Vec<Held>) -> Held
    ensures { result ≡ called scalar args.items }
{
    Held {
        scalar,
        found: !scalar && any_found(args.as_slice()),
    }
}

/// Whether something is found in one of these.
fn any_found(parts: &[Held]) -> bool
    ensures { result ≡ list_any (λ h. h.found) parts.now }
{
    parts.iter().any(|held| held.found)
}

/// Whether the operator is `or`.
pub fn is_or(op: Op) -> bool
    ensures { result ≡ is_or op }
{
    match op {
        Op::Or => true,
        _ => false,
    }
}
