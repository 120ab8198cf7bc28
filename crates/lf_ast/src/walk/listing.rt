//! An expression with all parts in it.
ghost use Rattle.std.specs.Prelude.{◌≡◌, ◌++◌, IfOk, OnOk};
ghost use Rattle.lf_ast.specs.Tree.{tree, nodes};
ghost use Rattle.lf_ast.specs.views.Walks.{trees_at};

use crate::Expr;
use crate::walk::choosing::{CALLS, Frame, Parts, split_first};
use lf_base::Memory;
use std::alloc::Global;

/// An expression and all parts in it, each before its own, in their order.
pub fn nodes_of<'a>(alloc: Global, expr: &'a Expr) -> Result<Vec<&'a Expr>, Memory>
    ensures { IfOk result (λ found. trees_at found.items ≡ nodes (tree expr.now)) }
{
    let mut found = Vec::new(alloc);
    put_nodes(alloc, expr, CALLS, &mut found)?;
    Ok(found)
}

/// Puts an expression and all parts in it behind others, by calls, so many deep at most. What lies deeper is listed by frames.
fn put_nodes<'a>(
    alloc: Global,
    expr: &'a Expr,
    calls: usize,
    found: &mut Vec<&'a Expr>,
) -> Result<(), Memory>
    ensures { OnOk result (trees_at found.new.items ≡ trees_at found.old.items ++ nodes (tree expr.now)) }
{
    if calls == 0 {
        let more = nodes_by_frames(alloc, expr)?;
        found.extend_from_slice(more.as_slice())?;
        return Ok(());
    }
    found.push(expr)?;
    let mut rest = Parts::All;
    'parts: while let Some((part, behind)) = split_first(rest, expr) {
        put_nodes(alloc, part, calls - 1, found)?;
        rest = behind;
    }
    Ok(())
}

/// An expression and all parts in it, by frames, without calls.
fn nodes_by_frames<'a>(alloc: Global, expr: &'a Expr) -> Result<Vec<&'a Expr>, Memory>
    ensures { IfOk result (λ found. trees_at found.items ≡ nodes (tree expr.now)) }
{
    let mut found = Vec::new(alloc);
    let mut open = Vec::new(alloc);
    found.push(expr)?;
    open.push(Frame {
        expr,
        parts: Parts::All,
        mark: (),
        note: (),
    })?;
    while let Some(frame) = open.pop() {
        if let Some((part, parts)) = split_first(frame.parts, frame.expr) {
            open.push(Frame {
                expr: frame.expr,
                parts,
                mark: (),
                note: (),
            })?;
            found.push(part)?;
            open.push(Frame {
                expr: part,
                parts: Parts::All,
                mark: (),
                note: (),
            })?;
        }
    }
    Ok(found)
}
