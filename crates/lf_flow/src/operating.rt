//! The row of an operator.
ghost use Rattle.std.specs.Prelude.{◌≡◌, IfOk};
ghost use Rattle.lf_ast.specs.Types.{is_scalar};
ghost use Rattle.lf_semantics.specs.ClassRows.{HasShape};
ghost use Rattle.lf_semantics.specs.Grouped.{is_filter};
ghost use Rattle.lf_semantics.specs.RowTable.{beside_scalar_row, binary_row};
ghost use Rattle.lf_flow.specs.views.Kept.{made_row};

use crate::effects::{bare, nameless};
use crate::matching::combine;
use crate::typed_row::TypedRow;
use lf_ast::{Matching, Op, is_scalar};
use lf_base::Memory;
use lf_classes::{Row, Universe};
use lf_nodes::is_filter;
use std::alloc::Global;

/// The row of an operator. The row of a scalar isn't looked at.
pub fn operate(
    alloc: Global,
    universe: &Universe,
    op: Op,
    matching: &Matching,
    left: TypedRow,
    right: TypedRow,
) -> Result<Row, Memory>
    requires left { HasShape universe.now (made_row universe.now left.row) }
    requires right { HasShape universe.now (made_row universe.now right.row) }
    ensures { IfOk result (λ row. row ≡ binary_row universe.now op matching.now (is_scalar left.form) (is_scalar right.form) (made_row universe.now left.row) (made_row universe.now right.row)) }
{
    match (is_scalar(left.form), is_scalar(right.form)) {
        (true, true) => bare(alloc, universe),
        (false, true) => {
            let row = left.into_row(alloc, universe)?;
            Ok(beside_scalar(universe, op, matching, row))
        }
        (true, false) => {
            let row = right.into_row(alloc, universe)?;
            Ok(beside_scalar(universe, op, matching, row))
        }
        (false, false) => {
            let left = left.into_row(alloc, universe)?;
            let right = right.into_row(alloc, universe)?;
            combine(alloc, universe, op, matching, left, right)
        }
    }
}

/// The row of an operator between samples, whose row this is, and a scalar.
fn beside_scalar(universe: &Universe, op: Op, matching: &Matching, row: Row) -> Row
    requires shape { HasShape universe.now row }
    ensures { result ≡ beside_scalar_row universe.now (is_filter op matching.now) row }
{
    if is_filter(op, matching) {
        row
    } else {
        nameless(universe, row)
    }
}
