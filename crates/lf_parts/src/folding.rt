//! Values of an expression and of all parts in it, each made of those of its parts.
ghost use Rattle.std.specs.Prelude.{◌≡◌, map, IfOk};
ghost use Rattle.lf_ast.specs.Tree.{parts_of, tree, nodes};

use crate::choosing::{choose, take_last};
use crate::counting::part_count;
use lf_ast::Expr;
use lf_ast::walk::{Fold, nodes_of};
use lf_base::Memory;
use std::alloc::Global;

/// A value of which there may be two, one beside the value of the expression around.
pub trait Copied {
    /// An equal value.
    fn copied(&self, alloc: Global) -> Result<Self, Memory>
        ensures { IfOk result (λ copy. copy ≡ self.now) };
}

impl Copied for bool {
    fn copied(&self, _alloc: Global) -> Result<bool, Memory> {
        Ok(*self)
    }
}

impl Copied for usize {
    fn copied(&self, _alloc: Global) -> Result<usize, Memory> {
        Ok(*self)
    }
}

/// The values of an expression and of all parts in it, in the order of the text, each before those of its own parts. Each is made once, and it calls no deeper for deep
/// expressions.
///
/// The parts are gone by from the last to the first, so that those of an expression come before it. The values of those that aren't taken yet stand on a stack, the first
/// in the text on top.
pub fn fold_parts<F: Fold>(alloc: Global, fold: &F, expr: &Expr) -> Result<Vec<F::Value>, Memory>
where
    F::Value: Copied,
    ensures { IfOk result (λ values. values.items ≡ map (F.value fold.now) (nodes (tree expr.now))) }
{
    let mut nodes = nodes_of(alloc, expr)?;
    let mut stack = Vec::new(alloc);
    let mut values = Vec::new(alloc);
    while let Some(node) = nodes.pop() {
        let of_parts = take_last(&mut stack, part_count(node))?;
        let value = value_of(alloc, fold, node, of_parts)?;
        values.push(value.copied(alloc)?)?;
        stack.push(value)?;
    }
    values.reverse();
    Ok(values)
}

/// The value of an expression from those of all its parts.
fn value_of<F: Fold>(
    alloc: Global,
    fold: &F,
    expr: &Expr,
    of_parts: Vec<F::Value>,
) -> Result<F::Value, Memory>
    requires { of_parts.items ≡ map (F.value fold.now) (parts_of (tree expr.now)) }
    ensures { IfOk result (λ made. made ≡ F.value fold.now (tree expr.now)) }
{
    let (parts, note) = fold.enter(expr);
    let needed = choose(alloc, parts, of_parts)?;
    fold.step(alloc, expr, note, needed)
}
