//! What operators give between two vectors.
ghost use Rattle.std.specs.Prelude.{◌≡◌, IfOk, IfSome, List};
ghost use Rattle.lf_ast.specs.Labels.{Labels};
ghost use Rattle.lf_ast.specs.Tree.{Tree};
ghost use Rattle.lf_ast.specs.declared.expr.Group.TheVariants.{One};
ghost use Rattle.lf_witness.specs.Ascending.{IsAscending};
ghost use Rattle.lf_witness.specs.Strict.{From, StrictCombines, StrictPairs, StrictlyEvaluates};
ghost use Rattle.lf_witness.specs.StrictRuns.{InOrder, IsStrictAnswer};
ghost use Rattle.lf_strict.specs.views.Paired.{ManyPairs};

use crate::apart::apart;
use crate::lending::Samples;
use crate::partners::{each_paired, each_with, indexed};
use crate::signature::{are_apart, by_partner, either};
use lf_ast::{Group, LabelSet, Matching, Op};
use lf_base::Memory;
use std::alloc::Global;

/// What an operator gives between two vectors: None where a side is, and but for the operators of sets where the match isn't unique or two pairs have one result.
pub fn combine<'a>(
    alloc: Global,
    op: Op,
    matching: &Matching,
    left: &Option<Samples<'_>>,
    right: &Option<Samples<'_>>,
) -> Result<Option<Samples<'a>>, Memory>
    requires left { IfSome left.now IsAscending }
    requires right { IfSome right.now IsAscending }
    ensures { (W : List Labels) (d e : Tree) → IsStrictAnswer W d left.now → IsStrictAnswer W e right.now → IfOk result (InOrder (From (StrictlyEvaluates W d) (λ P. From (StrictlyEvaluates W e) (StrictCombines op matching.now P)))) }
{
    match left {
        None => Ok(None),
        Some(left) => match right {
            None => Ok(None),
            Some(right) => between(alloc, op, matching, left, right),
        },
    }
}

/// What an operator gives between the left and the right samples, in ascending order.
fn between<'a>(
    alloc: Global,
    op: Op,
    matching: &Matching,
    left: &Samples<'_>,
    right: &Samples<'_>,
) -> Result<Option<Samples<'a>>, Memory>
    requires left { IsAscending left.now }
    requires right { IsAscending right.now }
    ensures { IfOk result (InOrder (StrictCombines op matching.now left.now right.now)) }
{
    match op {
        Op::And => Ok(Some(by_partner(alloc, matching, left, right, true)?)),
        Op::Or => Ok(Some(either(alloc, matching, left, right)?)),
        Op::Unless => Ok(Some(by_partner(alloc, matching, left, right, false)?)),
        _ => paired(alloc, op, matching, left, right),
    }
}

/// What the pairs of the left and the right samples give, in ascending order.
fn paired<'a>(
    alloc: Global,
    op: Op,
    matching: &Matching,
    left: &Samples<'_>,
    right: &Samples<'_>,
) -> Result<Option<Samples<'a>>, Memory>
    requires left { IsAscending left.now }
    requires right { IsAscending right.now }
    ensures { IfOk result (InOrder (StrictPairs op matching.now left.now right.now)) }
{
    match matching.group {
        Group::One => one_to_one(alloc, op, matching, left, right),
        Group::Left => many_to_one(alloc, op, matching, left, right),
        Group::Right => many_to_one(alloc, op, matching, right, left),
    }
}

/// What the pairs give where both sides are one sides.
fn one_to_one<'a>(
    alloc: Global,
    op: Op,
    matching: &Matching,
    left: &Samples<'_>,
    right: &Samples<'_>,
) -> Result<Option<Samples<'a>>, Memory>
    requires group { matching.now.group ≡ One }
    requires left { IsAscending left.now }
    requires right { IsAscending right.now }
    ensures { IfOk result (InOrder (StrictPairs op matching.now left.now right.now)) }
{
    let apart = are_apart(alloc, matching, left)?;
    if apart {
        many_to_one(alloc, op, matching, left, right)
    } else {
        Ok(None)
    }
}

/// What the pairs of a many side and a one side give, in ascending order. Each sample of the many side looks up its partner by the signature, where there are more than one.
fn many_to_one<'a>(
    alloc: Global,
    op: Op,
    matching: &Matching,
    many: &Samples<'_>,
    one: &Samples<'_>,
) -> Result<Option<Samples<'a>>, Memory>
    requires many { IsAscending many.now }
    requires one { IsAscending one.now }
    ensures { IfOk result (InOrder (ManyPairs op matching.now many.now one.now)) }
{
    if one.len() == 1 {
        let made = each_with(alloc, op, matching, many.as_slice(), one.get(0))?;
        return Ok(apart(made));
    }
    match indexed(alloc, matching, one.as_slice())? {
        None => Ok(None),
        Some(ones) => {
            let made = each_paired(alloc, op, matching, many.as_slice(), &ones)?;
            Ok(apart(made))
        }
    }
}
