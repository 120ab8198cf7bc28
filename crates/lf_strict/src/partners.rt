//! The one side of a match, under its signatures.
ghost use Rattle.std.specs.Prelude.{◌≡◌, ◌++◌, IfOk, OnOk};
ghost use Rattle.std.specs.List.{Contains, flat_map};
ghost use Rattle.lf_ast.specs.Labels.{Labels};
ghost use Rattle.lf_semantics.specs.Texts.{HasTexts};
ghost use Rattle.lf_witness.specs.Ascending.{IsAscending};
ghost use Rattle.lf_strict.specs.views.Paired.{AreIndexed, with_one, with_only};

use crate::choosing::SignatureLabels;
use crate::pair_labels::pair_result;
use crate::same_signature::have_same_signature;
use lf_ast::{LabelSet, Matching, Op};
use lf_base::Memory;
use std::alloc::Global;
use std::collections::BTreeMap;

/// Each sample under its signature, and None where two have equal signatures.
pub fn indexed(
    alloc: Global,
    matching: &Matching,
    samples: &[LabelSet],
) -> Result<Option<BTreeMap<LabelSet, LabelSet>>, Memory>
    requires { IsAscending samples.now }
    ensures { IfOk result (AreIndexed matching.now samples.now) }
{
    let mut ones = BTreeMap::new(alloc);
    for sample in samples {
        let _count = sample.len();
        let signature = sample.kept(&SignatureLabels { matching })?;
        if ones.insert(signature, sample.copy()?)?.is_some() {
            return Ok(None);
        }
    }
    Ok(Some(ones))
}

/// What the samples of the many side give with their partners. One that has none gives nothing.
pub fn each_paired(
    alloc: Global,
    op: Op,
    matching: &Matching,
    many: &[LabelSet],
    ones: &BTreeMap<LabelSet, LabelSet>,
) -> Result<Vec<LabelSet>, Memory>
    ensures made { IfOk result (λ made. made.items ≡ flat_map (with_one op matching.now ones.now) many.now) }
    ensures texts { IfOk result (λ made. (s : Labels) → Contains many.now s → HasTexts s) }
{
    let mut made = Vec::with_capacity(alloc, many.len())?;
    for sample in many {
        push_paired(op, matching, sample, ones, alloc, &mut made)?;
    }
    Ok(made)
}

/// Appends what a sample of the many side gives with its partner, if it has one.
fn push_paired(
    op: Op,
    matching: &Matching,
    sample: &LabelSet,
    ones: &BTreeMap<LabelSet, LabelSet>,
    alloc: Global,
    made: &mut Vec<LabelSet>,
) -> Result<(), Memory>
    ensures made { OnOk result (made.new.items ≡ made.old.items ++ with_one op matching.now ones.now sample.now) }
    ensures texts { OnOk result (HasTexts sample.now) }
{
    let _count = sample.len();
    let signature = sample.kept(&SignatureLabels { matching })?;
    if let Some(one) = ones.get(&signature) {
        made.push(pair_result(alloc, op, matching, sample, one)?)?;
    }
    Ok(())
}

/// What the samples of the many side give with the only sample of the one side. One that has another signature gives nothing.
pub fn each_with(
    alloc: Global,
    op: Op,
    matching: &Matching,
    many: &[LabelSet],
    one: &LabelSet,
) -> Result<Vec<LabelSet>, Memory>
    ensures made { IfOk result (λ made. made.items ≡ flat_map (with_only op matching.now one.now) many.now) }
    ensures texts { IfOk result (λ made. (s : Labels) → Contains many.now s → HasTexts s) }
    ensures one { IfOk result (λ made. HasTexts one.now) }
{
    let _count = one.len();
    let mut made = Vec::with_capacity(alloc, many.len())?;
    for sample in many {
        push_with(op, matching, sample, one, alloc, &mut made)?;
    }
    Ok(made)
}

/// Appends what a sample of the many side gives with one of the one side, if that has the same signature.
fn push_with(
    op: Op,
    matching: &Matching,
    sample: &LabelSet,
    one: &LabelSet,
    alloc: Global,
    made: &mut Vec<LabelSet>,
) -> Result<(), Memory>
    ensures made { OnOk result (made.new.items ≡ made.old.items ++ with_only op matching.now one.now sample.now) }
    ensures texts { OnOk result (HasTexts sample.now) }
{
    let _count = sample.len();
    if have_same_signature(matching, sample, one) {
        made.push(pair_result(alloc, op, matching, sample, one)?)?;
    }
    Ok(())
}
