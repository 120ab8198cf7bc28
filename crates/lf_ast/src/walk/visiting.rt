//! What is done along an expression, in the order of its text.
ghost use Rattle.std.specs.Prelude.{◌≡◌, cond, OnOk};
ghost use Rattle.lf_ast.specs.Tree.{Tree, parts_of, tree};
ghost use Rattle.lf_ast.specs.views.Walks.{along, chosen};
ghost use Rattle.lf_ast.specs.declared.walk.choosing.Parts.{Parts};

use crate::Expr;
use crate::walk::choosing::{CALLS, Frame, Parts, split_first};
use lf_base::Memory;
use std::alloc::Global;

/// What is done at each expression before its parts, between any two of them, and behind them.
pub trait Visitor {
    /// What is noted of an expression where it is entered, for what is done before and behind its parts.
    type Note: Drop;

    /// What the visit of a whole expression leaves.
    ghost visited: { Self → Tree → Self };

    /// What is left by what is done before an expression's parts.
    ghost before: { Self → Tree → Self };

    /// What is left by what is done between two of its parts.
    ghost between: { Self → Tree → Self };

    /// What is left by what is done behind its parts.
    ghost behind: { Self → Tree → Self };

    /// The parts that are visited.
    ghost needed: { Tree → Parts };

    /// What a note says of its expression.
    ghost notes: { Tree → Self.Note → Type 0 };

    /// The parts of an expression that are visited, and what is noted of it.
    fn enter(&self, expr: &Expr) -> (Parts, Self::Note)
        ensures parts { result.0 ≡ needed (tree expr.now) }
        ensures note { notes (tree expr.now) result.1 };

    /// What is done before the parts of an expression.
    fn before(&mut self, alloc: Global, expr: &Expr, note: &Self::Note) -> Result<(), Memory>
        requires { notes (tree expr.now) note.now }
        ensures { OnOk result (self.new ≡ before self.old (tree expr.now)) };

    /// What is done between two parts of an expression.
    fn between(&mut self, alloc: Global, expr: &Expr) -> Result<(), Memory>
        ensures { OnOk result (self.new ≡ between self.old (tree expr.now)) };

    /// What is done behind the parts of an expression.
    fn behind(&mut self, alloc: Global, expr: &Expr, note: &Self::Note) -> Result<(), Memory>
        requires { notes (tree expr.now) note.now }
        ensures { OnOk result (self.new ≡ behind self.old (tree expr.now)) };

    /// A visit does what is done at the expression itself, and visits its parts.
    ghost steps: { (state : Self) (x : Tree) → visited state x ≡ behind (along visited between x (chosen (needed x) (parts_of x)) (before state x)) x };
}

/// Visits an expression. It goes by calls for 16 levels, and by frames that lie in memory below them.
pub fn visit<V: Visitor>(alloc: Global, visitor: &mut V, expr: &Expr) -> Result<(), Memory>
    ensures { OnOk result (visitor.new ≡ V.visited visitor.old (tree expr.now)) }
{
    visit_within(alloc, visitor, expr, CALLS)
}

/// Visits an expression by calls, so many deep at most. What lies deeper is visited by frames.
fn visit_within<V: Visitor>(
    alloc: Global,
    visitor: &mut V,
    expr: &Expr,
    calls: usize,
) -> Result<(), Memory>
    ensures { OnOk result (visitor.new ≡ V.visited visitor.old (tree expr.now)) }
{
    if calls == 0 {
        return visit_by_frames(alloc, visitor, expr);
    }
    let (parts, note) = visitor.enter(expr);
    visitor.before(alloc, expr, &note)?;
    let mut rest = parts;
    let mut begun = false;
    'parts: while let Some((part, behind)) = split_first(rest, expr) {
        go_on(alloc, visitor, begun, expr)?;
        visit_within(alloc, visitor, part, calls - 1)?;
        begun = true;
        rest = behind;
    }
    visitor.behind(alloc, expr, &note)
}

/// Visits an expression by frames, without calls. Each frame's mark is whether a part was visited.
fn visit_by_frames<V: Visitor>(alloc: Global, visitor: &mut V, expr: &Expr) -> Result<(), Memory>
    ensures { OnOk result (visitor.new ≡ V.visited visitor.old (tree expr.now)) }
{
    let mut frames = Vec::new(alloc);
    let (parts, note) = visitor.enter(expr);
    visitor.before(alloc, expr, &note)?;
    frames.push(Frame {
        expr,
        parts,
        mark: false,
        note,
    })?;
    while let Some(frame) = frames.pop() {
        match split_first(frame.parts, frame.expr) {
            Some((part, parts)) => {
                go_on(alloc, visitor, frame.mark, frame.expr)?;
                frames.push(Frame {
                    expr: frame.expr,
                    parts,
                    mark: true,
                    note: frame.note,
                })?;
                let (parts, note) = visitor.enter(part);
                visitor.before(alloc, part, &note)?;
                frames.push(Frame {
                    expr: part,
                    parts,
                    mark: false,
                    note,
                })?;
            }
            None => visitor.behind(alloc, frame.expr, &frame.note)?,
        }
    }
    Ok(())
}

/// Does what is done between two parts, if one was visited.
fn go_on<V: Visitor>(alloc: Global, visitor: &mut V, begun: bool, expr: &Expr) -> Result<(), Memory>
    ensures { OnOk result (visitor.new ≡ cond begun (V.between visitor.old (tree expr.now)) visitor.old) }
{
    if begun {
        visitor.between(alloc, expr)
    } else {
        Ok(())
    }
}
