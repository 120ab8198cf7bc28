//! Some of the parts of an expression.
ghost use Rattle.std.specs.Prelude.{◌≡◌, ◌∷◌, [], drop, map, IfNone, IfSome};
ghost use Rattle.lf_ast.specs.Tree.{parts_of, tree};
ghost use Rattle.lf_ast.specs.views.Walks.{IsPartAt, chosen};

use crate::Expr;

/// How deep walks go by calls of their own. What lies deeper is walked by frames, so that deep expressions need no deep calls. Few expressions are so deep, and calls take no
/// memory from the allocator.
pub(crate) const CALLS: usize = 16;

/// Some parts of an expression, which are counted from 0.
#[derive(Clone, Copy, Drop, Debug)]
pub enum Parts {
    All,
    /// The part at a place, and those behind it.
    From { place: usize },
    /// The part at a place, if there is one.
    Only { place: usize },
    Nothing,
}

/// An expression of which some parts were gone into, those that weren't, the mark by which a walk goes on, and its caller's note.
#[derive(Drop)]
pub(crate) struct Frame<'a, M, N> {
    pub(crate) expr: &'a Expr,
    pub(crate) parts: Parts,
    pub(crate) mark: M,
    pub(crate) note: N,
}

/// The first of some parts of an expression, and the others.
pub(crate) fn split_first<'a>(parts: Parts, expr: &'a Expr) -> Option<(&'a Expr, Parts)>
    ensures some { IfSome result (λ found. chosen parts (parts_of (tree expr.now)) ≡ tree found.0.now ∷ chosen found.1 (parts_of (tree expr.now))) }
    ensures none { IfNone result (chosen parts (parts_of (tree expr.now)) ≡ []) }
{
    match parts {
        Parts::All => split_at(expr, 0),
        Parts::From { place } => split_at(expr, place),
        Parts::Only { place } => match part_at(expr, place) {
            Some(part) => Some((part, Parts::Nothing)),
            None => None,
        },
        Parts::Nothing => None,
    }
}

/// The part of an expression at a place, and those behind it.
fn split_at<'a>(expr: &'a Expr, place: usize) -> Option<(&'a Expr, Parts)>
    ensures some { IfSome result (λ found. drop place (parts_of (tree expr.now)) ≡ tree found.0.now ∷ chosen found.1 (parts_of (tree expr.now))) }
    ensures none { IfNone result (drop place (parts_of (tree expr.now)) ≡ []) }
{
    match part_at(expr, place) {
        Some(part) => Some((part, Parts::From { place: place + 1 })),
        None => None,
    }
}

/// The part of an expression at a place, counted from 0.
pub fn part_at(expr: &Expr, place: usize) -> Option<&Expr>
    ensures { IsPartAt (parts_of (tree expr.now)) place result }
{
    match expr {
        Expr::Number { .. } | Expr::Str { .. } | Expr::Selector { .. } => None,
        Expr::Subquery { of, .. } => the_only(of, place),
        Expr::Paren { of, .. } => the_only(of, place),
        Expr::Unary { of, .. } => the_only(of, place),
        Expr::Binary { left, right, .. } => either(left, right, place),
        Expr::Call { args, .. } => argument(args.as_slice(), place),
        Expr::Aggregate { args, .. } => argument(args.as_slice(), place),
    }
}

/// The only part, if it is at the place.
fn the_only(part: &Expr, place: usize) -> Option<&Expr>
    ensures { IsPartAt (tree part.now ∷ []) place result }
{
    if place == 0 { Some(part) } else { None }
}

/// The side of an operator at a place.
fn either<'a>(left: &'a Expr, right: &'a Expr, place: usize) -> Option<&'a Expr>
    ensures { IsPartAt (tree left.now ∷ tree right.now ∷ []) place result }
{
    match place {
        0 => Some(left),
        1 => Some(right),
        _ => None,
    }
}

/// The argument at a place.
fn argument(args: &[Expr], place: usize) -> Option<&Expr>
    ensures { IsPartAt (map tree args.now) place result }
{
    if place < args.len() {
        Some(&args[place])
    } else {
        None
    }
}
