//! The rows of functions and aggregations, by what they do to labels.
ghost use Rattle.std.specs.Prelude.{◌≡◌, IfOk};
ghost use Rattle.lf_ast.specs.Tree.{trees};
ghost use Rattle.lf_semantics.specs.ClassRows.{HasShape};
ghost use Rattle.lf_semantics.specs.Listing.{IsListing};
ghost use Rattle.lf_semantics.specs.RowTable.{bare_row, date_row, effect_row, nameless, quantile_row};

use crate::absence::absent;
use crate::counting::count_values;
use crate::grouping::group;
use crate::joining::{join_labels, may_be_present};
use crate::replacing::replace_label;
use lf_ast::{Expr, Grouping, LabelEffect};
use lf_base::Memory;
use lf_classes::{Row, Universe};
use std::alloc::Global;

/// The row of the one sample without labels.
pub fn bare(alloc: Global, universe: &Universe) -> Result<Row, Memory>
    ensures { IfOk result (λ row. row ≡ bare_row universe.now) }
{
    let mut row = Row::full(alloc, universe)?;
    group(alloc, universe, &Grouping::None, &mut row)?;
    Ok(row)
}

/// The row of samples that lose their metric name.
pub fn nameless(universe: &Universe, mut row: Row) -> Row
    requires shape { HasShape universe.now row }
    ensures { result ≡ nameless universe.now row }
{
    row.drop_label(universe.label_of("__name__"));
    row
}

/// The row of a function or an aggregation with this effect, whose operand has this row.
pub fn effect(
    alloc: Global,
    universe: &Universe,
    effect: LabelEffect,
    grouping: &Grouping,
    args: &[Expr],
    mut row: Row,
) -> Result<Row, Memory>
    requires listing { IsListing universe.now }
    requires shape { HasShape universe.now row }
    ensures { IfOk result (λ made. made ≡ effect_row universe.now effect grouping.now (trees args.now) row) }
{
    match effect {
        LabelEffect::Maps => Ok(nameless(universe, row)),
        LabelEffect::Keeps => Ok(row),
        LabelEffect::Groups => {
            group(alloc, universe, grouping, &mut row)?;
            Ok(row)
        }
        LabelEffect::CountValues => {
            count_values(alloc, universe, grouping, args, &mut row)?;
            Ok(row)
        }
        LabelEffect::Date => date(alloc, universe, args, row),
        LabelEffect::Absent => absent(alloc, universe, args),
        LabelEffect::LabelReplace => {
            replace_label(alloc, universe, args, &mut row)?;
            Ok(row)
        }
        LabelEffect::LabelJoin => {
            join_labels(alloc, universe, args, &mut row)?;
            Ok(row)
        }
        LabelEffect::HistogramQuantile => quantile(alloc, universe, row),
        LabelEffect::Bare => bare(alloc, universe),
    }
}

/// The row of a function of dates: without an argument it speaks of now.
fn date(alloc: Global, universe: &Universe, args: &[Expr], row: Row) -> Result<Row, Memory>
    requires shape { HasShape universe.now row }
    ensures { IfOk result (λ made. made ≡ date_row universe.now (trees args.now) row) }
{
    match args {
        [] => bare(alloc, universe),
        [_, ..] => Ok(nameless(universe, row)),
    }
}

/// The row of `histogram_quantile`, which sees no sample without `le`, and drops it and the metric name.
fn quantile(alloc: Global, universe: &Universe, row: Row) -> Result<Row, Memory>
    requires listing { IsListing universe.now }
    requires shape { HasShape universe.now row }
    ensures { IfOk result (λ made. made ≡ quantile_row universe.now row) }
{
    if may_be_present(universe, &row, "le") {
        let mut row = nameless(universe, row);
        row.drop_label(universe.label_of("le"));
        Ok(row)
    } else {
        Row::empty(alloc, universe)
    }
}
