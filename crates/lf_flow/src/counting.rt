//! The row of `count_values`.
ghost use Rattle.std.specs.Prelude.{◌≡◌, OnOk};
ghost use Rattle.lf_semantics.specs.ClassRows.{HasShape};
ghost use Rattle.lf_semantics.specs.Grouped.{may_be_lacked};
ghost use Rattle.lf_ast.specs.Tree.{trees};
ghost use Rattle.lf_ast.specs.Arguments.{text_at, texts_of};
ghost use Rattle.lf_semantics.specs.RowTable.{counted_row};
ghost use Rattle.lf_ast.specs.Types.{is_among};

use crate::grouping::group;
use lf_ast::{Expr, Grouping, text_at};
use lf_base::Memory;
use lf_classes::{Row, Universe};
use lf_nodes::{is_among, is_metric};
use std::alloc::Global;

/// Makes the row of the operand that of `count_values`: grouped, and then the label that the first argument names has every text, and none only where it may be lacked.
pub fn count_values(
    alloc: Global,
    universe: &Universe,
    grouping: &Grouping,
    args: &[Expr],
    row: &mut Row,
) -> Result<(), Memory>
    requires shape { HasShape universe.now row.old }
    ensures { OnOk result (row.new ≡ counted_row universe.now grouping.now (text_at (texts_of (trees args.now)) 0) row.old) }
{
    group(alloc, universe, grouping, row)?;
    let name = text_at(args, 0);
    let label = universe.label_of(name);
    row.fill_label(label);
    row.keep(label, 0, may_be_lacked(grouping, name));
    Ok(())
}

/// Whether a grouping takes the label out of the group.
fn may_be_lacked(grouping: &Grouping, label: &str) -> bool
    ensures { result ≡ may_be_lacked grouping.now label.now }
{
    match grouping {
        Grouping::Without { labels } => is_among(labels.as_slice(), label) || is_metric(label),
        _ => false,
    }
}
