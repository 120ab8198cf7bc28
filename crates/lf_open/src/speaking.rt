//! The selectors, calls and aggregations that stand in an expression.
ghost use Rattle.std.specs.Prelude.{◌≡◌, ◌++◌, IfOk, OnOk};
ghost use Rattle.lf_ast.specs.Tree.{parts_of, tree};
ghost use Rattle.lf_ast.specs.views.Walks.{trees_at};
ghost use Rattle.lf_open.specs.views.Speaking.{AreSpeaking, own_speaking};

use lf_ast::Expr;
use lf_ast::walk::part_at;
use lf_base::Memory;
use lf_deps::is_scalar_call;
use std::alloc::Global;

/// The selectors, calls and aggregations that stand in an expression, in no order. Nothing within a scalar is looked at.
///
/// Only a call can be a scalar that has any of these in it: an operator is a scalar where both its sides are.
pub(crate) fn speaking<'a>(alloc: Global, expr: &'a Expr) -> Result<Vec<&'a Expr>, Memory>
    ensures { IfOk result (λ found. AreSpeaking (tree expr.now) (trees_at found.items)) }
{
    let mut found = Vec::new(alloc);
    let mut left = Vec::new(alloc);
    left.push(expr)?;
    while let Some(part) = left.pop() {
        if !is_scalar_call(part) {
            push_speaking(part, &mut found)?;
            push_parts(part, &mut left)?;
        }
    }
    Ok(found)
}

/// Puts an expression behind others if it is a selector, a call or an aggregation.
fn push_speaking<'a>(expr: &'a Expr, found: &mut Vec<&'a Expr>) -> Result<(), Memory>
    ensures { OnOk result (trees_at found.new.items ≡ trees_at found.old.items ++ own_speaking (tree expr.now)) }
{
    match expr {
        Expr::Selector { .. } | Expr::Call { .. } | Expr::Aggregate { .. } => {
            found.push(expr)?;
            Ok(())
        }
        _ => Ok(()),
    }
}

/// Puts the parts of an expression behind others.
fn push_parts<'a>(expr: &'a Expr, parts: &mut Vec<&'a Expr>) -> Result<(), Memory>
    ensures { OnOk result (trees_at parts.new.items ≡ trees_at parts.old.items ++ parts_of (tree expr.now)) }
{
    let mut place = 0;
    while let Some(part) = part_at(expr, place) {
        parts.push(part)?;
        place += 1;
    }
    Ok(())
}
