//! What operators give.
ghost use Rattle.std.specs.Prelude.{IfOk, IfSome, List};
ghost use Rattle.lf_ast.specs.Labels.{Labels};
ghost use Rattle.lf_ast.specs.Tree.{Tree};
ghost use Rattle.lf_semantics.specs.Grouped.{is_filter};
ghost use Rattle.lf_witness.specs.Ascending.{IsAscending};
ghost use Rattle.lf_witness.specs.Strict.{StrictBinary, StrictlyEvaluates};
ghost use Rattle.lf_witness.specs.StrictRuns.{InOrder, IsStrictAnswer};

use crate::lending::Samples;
use crate::operand::beside_scalar;
use crate::pairs::combine;
use crate::sets::bare;
use lf_ast::{LabelSet, Matching, Op};
use lf_base::Memory;
use lf_nodes::is_filter;
use std::alloc::Global;

/// What an operator gives between a left side, which is a scalar or isn't, and a right one. What a scalar gives isn't looked at.
pub fn operated<'a>(
    alloc: Global,
    op: Op,
    matching: &Matching,
    is_left_scalar: bool,
    is_right_scalar: bool,
    left: Option<Samples<'a>>,
    right: Option<Samples<'a>>,
) -> Result<Option<Samples<'a>>, Memory>
    requires left { IfSome left IsAscending }
    requires right { IfSome right IsAscending }
    ensures { (W : List Labels) (d e : Tree) → IsStrictAnswer W d left.entry → IsStrictAnswer W e right.entry → IfOk result (InOrder (StrictBinary op matching.now is_left_scalar is_right_scalar (StrictlyEvaluates W d) (StrictlyEvaluates W e))) }
{
    if is_left_scalar {
        if is_right_scalar {
            return Ok(Some(bare(alloc)));
        }
        return beside_scalar(alloc, is_filter(op, matching), right);
    }
    if is_right_scalar {
        return beside_scalar(alloc, is_filter(op, matching), left);
    }
    combine(alloc, op, matching, &left, &right)
}
