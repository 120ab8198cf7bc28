//! The labels of a grouping, and what it leaves of a row.
ghost use Rattle.std.specs.Prelude.{◌≡◌, IfOk, OnOk};
ghost use Rattle.lf_semantics.specs.ClassRows.{HasShape};
ghost use Rattle.lf_semantics.specs.RowTable.{grouped_row, is_group_label};
ghost use Rattle.lf_flow.specs.views.Chosen.{Chooses};

use crate::labels::Labels;
use lf_ast::Grouping;
use lf_base::Memory;
use lf_classes::{Row, Universe};
use std::alloc::Global;

/// Leaves each label outside the group only the empty text.
pub fn group(
    alloc: Global,
    universe: &Universe,
    grouping: &Grouping,
    row: &mut Row,
) -> Result<(), Memory>
    requires shape { HasShape universe.now row.old }
    ensures { OnOk result (row.new ≡ grouped_row universe.now grouping.now row.old) }
{
    group_labels(alloc, universe, grouping)?.drop_others(universe, row);
    Ok(())
}

/// The labels of a group: those of `by`, all but the metric name and those of `without`, or none.
fn group_labels(alloc: Global, universe: &Universe, grouping: &Grouping) -> Result<Labels, Memory>
    ensures { IfOk result (Chooses universe.now (is_group_label universe.now grouping.now)) }
{
    match grouping {
        Grouping::None => Labels::among(alloc, universe, &[]),
        Grouping::By { labels } => Labels::among(alloc, universe, labels.as_slice()),
        Grouping::Without { labels } => {
            let mut group = Labels::without(alloc, universe, labels.as_slice())?;
            group.drop_metric(universe);
            Ok(group)
        }
    }
}
