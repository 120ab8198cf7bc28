//! Values of expressions, each made of those of its parts.
ghost use Rattle.std.specs.Prelude.{◌≡◌, map, IfOk};
ghost use Rattle.lf_ast.specs.Tree.{Tree, parts_of, tree};
ghost use Rattle.lf_ast.specs.views.Walks.{chosen};
ghost use Rattle.lf_ast.specs.declared.walk.choosing.Parts.{Parts};

use crate::Expr;
use crate::walk::choosing::{CALLS, Frame, Parts, split_first};
use lf_base::Memory;
use std::alloc::Global;

/// A value for each expression, made of those of its parts.
pub trait Fold {
    type Value: Drop;

    /// What is noted of an expression where it is entered, until its own value is made.
    type Note: Drop;

    /// The value of an expression.
    ghost value: { Self → Tree → Self.Value };

    /// The parts whose values it is made of.
    ghost needed: { Self → Tree → Parts };

    /// What a note says of its expression.
    ghost notes: { Tree → Self.Note → Type 0 };

    /// The parts of an expression whose values its own is made of, and what is noted of it.
    fn enter(&self, expr: &Expr) -> (Parts, Self::Note)
        ensures parts { result.0 ≡ needed self.now (tree expr.now) }
        ensures note { notes (tree expr.now) result.1 };

    /// The value of an expression from those of its parts that are needed.
    fn step(
        &self,
        alloc: Global,
        expr: &Expr,
        note: Self::Note,
        values: Vec<Self::Value>,
    ) -> Result<Self::Value, Memory>
        requires note { notes (tree expr.now) note }
        requires values { values.items ≡ map (value self.now) (chosen (needed self.now (tree expr.now)) (parts_of (tree expr.now))) }
        ensures { IfOk result (λ made. made ≡ value self.now (tree expr.now)) };
}

/// The value of an expression. It goes by calls for 16 levels, and by frames that lie in memory below them.
pub fn fold_up<F: Fold>(alloc: Global, fold: &F, expr: &Expr) -> Result<F::Value, Memory>
    ensures { IfOk result (λ made. made ≡ F.value fold.now (tree expr.now)) }
{
    fold_within(alloc, fold, expr, CALLS)
}

/// The value of an expression by calls, so many deep at most. What lies deeper is walked by frames.
fn fold_within<F: Fold>(
    alloc: Global,
    fold: &F,
    expr: &Expr,
    calls: usize,
) -> Result<F::Value, Memory>
    ensures { IfOk result (λ made. made ≡ F.value fold.now (tree expr.now)) }
{
    if calls == 0 {
        return fold_by_frames(alloc, fold, expr);
    }
    let (parts, note) = fold.enter(expr);
    let mut values = Vec::new(alloc);
    let mut rest = parts;
    'parts: while let Some((part, behind)) = split_first(rest, expr) {
        values.push(fold_within(alloc, fold, part, calls - 1)?)?;
        rest = behind;
    }
    fold.step(alloc, expr, note, values)
}

/// The value of an expression by frames, without calls. Each frame's mark is how many values there were before those of its parts.
fn fold_by_frames<F: Fold>(alloc: Global, fold: &F, expr: &Expr) -> Result<F::Value, Memory>
    ensures { IfOk result (λ made. made ≡ F.value fold.now (tree expr.now)) }
{
    let mut frames = Vec::new(alloc);
    let mut values = Vec::new(alloc);
    let (parts, note) = fold.enter(expr);
    frames.push(Frame {
        expr,
        parts,
        mark: 0,
        note,
    })?;
    while let Some(frame) = frames.pop() {
        match split_first(frame.parts, frame.expr) {
            Some((part, parts)) => {
                frames.push(Frame {
                    expr: frame.expr,
                    parts,
                    mark: frame.mark,
                    note: frame.note,
                })?;
                let (parts, note) = fold.enter(part);
                frames.push(Frame {
                    expr: part,
                    parts,
                    mark: values.len(),
                    note,
                })?;
            }
            None => {
                let of_parts = values.split_off(frame.mark)?;
                values.push(fold.step(alloc, frame.expr, frame.note, of_parts)?)?;
            }
        }
    }
    Ok(values.pop().unwrap())
}
