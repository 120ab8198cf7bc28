//! The row of an operator between two vectors.
ghost use Rattle.std.specs.Prelude.{◌≡◌, ◌||◌, cond, length, map, not, false, slice_index_or, IfOk, OnOk};
ghost use Rattle.lf_semantics.specs.ClassRows.{HasShape, holds, is_live, narrowed, bottom, only_empty, join};
ghost use Rattle.lf_semantics.specs.RowTable.{combined_row, keeps_label, keeps_label_by, many_to_one_row, matched_row, nameless_if, paired_row, signs_label, taken_row};
ghost use Rattle.lf_flow.specs.views.Chosen.{Chooses};

use crate::labels::Labels;
use lf_ast::{Group, Matching, Name, Op};
use lf_base::{Memory, Seq};
use lf_classes::{Row, Universe};
use lf_nodes::is_arithmetic;
use std::alloc::Global;

/// The row of an operator between two vectors, whose rows these are.
pub fn combine(
    alloc: Global,
    universe: &Universe,
    op: Op,
    matching: &Matching,
    left: Row,
    right: Row,
) -> Result<Row, Memory>
    requires left { HasShape universe.now left }
    requires right { HasShape universe.now right }
    ensures { IfOk result (λ row. row ≡ combined_row universe.now op matching.now left right) }
{
    match op {
        Op::And => meet_sides(alloc, universe, matching, left, &right),
        Op::Or => join_sides(left, &right),
        Op::Unless => Ok(left),
        _ => pair_sides(alloc, universe, op, matching, left, right),
    }
}

/// The row of `and`: of the left samples that have a right one of the same signature.
fn meet_sides(
    alloc: Global,
    universe: &Universe,
    matching: &Matching,
    mut left: Row,
    right: &Row,
) -> Result<Row, Memory>
    requires left { HasShape universe.now left }
    requires right { HasShape universe.now right.now }
    ensures { IfOk result (λ row. row ≡ matched_row universe.now matching.now left right.now) }
{
    let signature = signature_labels(alloc, universe, matching)?;
    match_side(universe, &signature, &mut left, right);
    Ok(left)
}

/// The row of `or`: of the samples of both sides.
fn join_sides(mut left: Row, right: &Row) -> Result<Row, Memory>
    requires { map length left ≡ map length right.now }
    ensures { IfOk result (λ row. row ≡ join left right.now) }
{
    left.join(right);
    Ok(left)
}

/// The row of an arithmetic operator or a comparison: of the pairs of samples that have the same signature.
fn pair_sides(
    alloc: Global,
    universe: &Universe,
    op: Op,
    matching: &Matching,
    left: Row,
    right: Row,
) -> Result<Row, Memory>
    requires left { HasShape universe.now left }
    requires right { HasShape universe.now right }
    ensures { IfOk result (λ row. row ≡ paired_row universe.now matching.now.group op matching.now (matched_row universe.now matching.now left right) (matched_row universe.now matching.now right left)) }
{
    match matching.group {
        Group::One => one_to_one(alloc, universe, op, matching, left, &right),
        Group::Left => many_to_one(alloc, universe, op, matching, left, right),
        Group::Right => many_to_one(alloc, universe, op, matching, right, left),
    }
}

/// The row of pairs where a sample has at most one of the same signature on the other side: of the labels of the left side those that are kept.
fn one_to_one(
    alloc: Global,
    universe: &Universe,
    op: Op,
    matching: &Matching,
    left: Row,
    right: &Row,
) -> Result<Row, Memory>
    requires left { HasShape universe.now left }
    requires right { HasShape universe.now right.now }
    ensures { IfOk result (λ row. row ≡ only_empty (λ label. not (keeps_label universe.now op matching.now label)) (matched_row universe.now matching.now left right.now)) }
{
    let mut row = meet_sides(alloc, universe, matching, left, right)?;
    let kept = kept_labels(alloc, universe, op, matching)?;
    kept.drop_others(universe, &mut row);
    Ok(row)
}

/// The row of pairs where samples of the one side have several on the many side: of the labels of the many side, and of those behind the modifier as on the one side.
fn many_to_one(
    alloc: Global,
    universe: &Universe,
    op: Op,
    matching: &Matching,
    mut many: Row,
    mut one: Row,
) -> Result<Row, Memory>
    requires many { HasShape universe.now many }
    requires one { HasShape universe.now one }
    ensures { IfOk result (λ row. row ≡ many_to_one_row universe.now op matching.now (matched_row universe.now matching.now many one) (matched_row universe.now matching.now one many)) }
{
    let signature = signature_labels(alloc, universe, matching)?;
    let before = many.copy()?;
    match_side(universe, &signature, &mut many, &one);
    match_side(universe, &signature, &mut one, &before);
    drop_name_if(universe, is_arithmetic(op), &mut many);
    take_labels(alloc, universe, &matching.include, &mut many, &one)?;
    drop_name_if(universe, matching.bool_mod, &mut many);
    Ok(many)
}

/// Leaves each label of a signature the classes that the other side has too. Where a side is empty, nothing matches.
fn match_side(universe: &Universe, signature: &Labels, row: &mut Row, other: &Row)
    requires signature { length signature.now ≡ length universe.now.named }
    requires row { HasShape universe.now row.old }
    requires other { HasShape universe.now other.now }
    ensures { row.new ≡ cond (is_live other.now) (narrowed (λ label class. not (slice_index_or signature.now label false) || holds other.now label class) row.old) (bottom universe.now) }
{
    if row.is_empty() || other.is_empty() {
        row.clear();
    } else {
        signature.meet(universe, row, other);
    }
}

/// Gives the labels of these names the classes that they have on the one side. Where that is empty, nothing matches.
fn take_labels(
    alloc: Global,
    universe: &Universe,
    names: &Seq<Name>,
    row: &mut Row,
    one: &Row,
) -> Result<(), Memory>
    requires row { HasShape universe.now row.old }
    requires one { HasShape universe.now one.now }
    ensures { OnOk result (row.new ≡ taken_row universe.now one.now names.now row.old) }
{
    if one.is_empty() {
        row.clear();
    } else {
        let taken = Labels::among(alloc, universe, names.as_slice())?;
        taken.take(universe, row, one);
    }
    Ok(())
}

/// Leaves the metric name only the empty text, where it is dropped.
fn drop_name_if(universe: &Universe, drops: bool, row: &mut Row)
    requires { HasShape universe.now row.old }
    ensures { row.new ≡ nameless_if universe.now drops row.old }
{
    if drops {
        row.drop_label(universe.label_of("__name__"));
    }
}

/// The labels of the signature: those of `on`, or else all but the metric name and those of `ignoring`.
fn signature_labels(
    alloc: Global,
    universe: &Universe,
    matching: &Matching,
) -> Result<Labels, Memory>
    ensures { IfOk result (Chooses universe.now (signs_label universe.now matching.now)) }
{
    let mut labels = named_labels(alloc, universe, matching)?;
    if matching.on.is_none() {
        labels.drop_metric(universe);
    }
    Ok(labels)
}

/// The labels that a one-to-one match keeps of the left side. Arithmetic and `bool` drop the metric name.
fn kept_labels(
    alloc: Global,
    universe: &Universe,
    op: Op,
    matching: &Matching,
) -> Result<Labels, Memory>
    ensures { IfOk result (Chooses universe.now (keeps_label universe.now op matching.now)) }
{
    let mut labels = named_labels(alloc, universe, matching)?;
    if is_arithmetic(op) || matching.bool_mod {
        labels.drop_metric(universe);
    }
    Ok(labels)
}

/// The labels of `on`, or else all but those of `ignoring`.
fn named_labels(alloc: Global, universe: &Universe, matching: &Matching) -> Result<Labels, Memory>
    ensures { IfOk result (Chooses universe.now (keeps_label_by universe.now matching.now.on matching.now.ignoring)) }
{
    match (&matching.on, &matching.ignoring) {
        (Some(names), _) => Labels::among(alloc, universe, names.as_slice()),
        (None, Some(names)) => Labels::without(alloc, universe, names.as_slice()),
        (None, None) => Labels::without(alloc, universe, &[]),
    }
}
