//! The labels of what a pair of samples gives.
ghost use Rattle.std.specs.Prelude.{◌≡◌, IfOk, OnOk};
ghost use Rattle.lf_semantics.specs.Grouped.{many_to_one, taken_from, without_name_if};
ghost use Rattle.lf_semantics.specs.Texts.{value_of, with_label};
ghost use Rattle.lf_strict.specs.views.Paired.{result_of};

use crate::choosing::{AllButName, PairLabels};
use lf_ast::{Group, LabelSet, Matching, Name, Op};
use lf_base::{Memory, Text};
use lf_nodes::is_arithmetic;
use std::alloc::Global;

/// What a sample of the many side gives with one of the one side; one to one the left side is the many side.
pub fn pair_result(
    alloc: Global,
    op: Op,
    matching: &Matching,
    many: &LabelSet,
    one: &LabelSet,
) -> Result<LabelSet, Memory>
    ensures { IfOk result (λ made. made ≡ result_of matching.now.group op matching.now many.now one.now) }
{
    match matching.group {
        Group::One => many.kept(&PairLabels { op, matching }),
        Group::Left => many_to_one(alloc, op, matching, many, one),
        Group::Right => many_to_one(alloc, op, matching, many, one),
    }
}

/// The labels of the many side, with those of the group's list from the one side. Arithmetic drops the metric name of the many side, and `bool` that of the result.
fn many_to_one(
    alloc: Global,
    op: Op,
    matching: &Matching,
    many: &LabelSet,
    one: &LabelSet,
) -> Result<LabelSet, Memory>
    ensures { IfOk result (λ made. made ≡ many_to_one op matching.now many.now one.now) }
{
    let mut made = without_name_if(is_arithmetic(op), many)?;
    take_labels(alloc, &mut made, one, matching.include.as_slice())?;
    without_name_if(matching.bool_mod, &made)
}

/// A sample without its metric name, where that is dropped.
fn without_name_if(drops: bool, sample: &LabelSet) -> Result<LabelSet, Memory>
    ensures { IfOk result (λ made. made ≡ without_name_if drops sample.now) }
{
    if drops {
        sample.kept(&AllButName)
    } else {
        sample.copy()
    }
}

/// Sets each of these labels as on the one side, which may have none, the first last. It may have set some where it fails.
fn take_labels(
    alloc: Global,
    made: &mut LabelSet,
    one: &LabelSet,
    names: &[Name],
) -> Result<(), Memory>
    ensures { OnOk result (made.new ≡ taken_from one.now names.now made.old) }
{
    for k in 0..names.len() {
        let name = &names[names.len() - 1 - k];
        take_label(alloc, made, one, &name.text)?;
    }
    Ok(())
}

/// Sets a label as on the one side, which may have none.
fn take_label(alloc: Global, made: &mut LabelSet, one: &LabelSet, name: &Text) -> Result<(), Memory>
    ensures { OnOk result (made.new ≡ with_label name.now (value_of one.now name.now) made.old) }
{
    match one.get(name.as_str()) {
        Some(text) => made.set(name, text),
        None => made.set(name, &Text::of(alloc, "")?),
    }
}
