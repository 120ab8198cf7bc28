//! Signatures of vector matching.
ghost use Rattle.std.specs.Prelude.{◌≡◌, ◌++◌, IfOk, OnOk, Some};
ghost use Rattle.std.specs.FinMap.{entries};
ghost use Rattle.std.specs.List.{AllZip, Contains, filter};
ghost use Rattle.lf_ast.specs.Labels.{HasNoEmptyText, Labels};
ghost use Rattle.lf_semantics.specs.Evaluation.{AreEither};
ghost use Rattle.lf_semantics.specs.Texts.{HasTexts};
ghost use Rattle.lf_witness.specs.Ascending.{IsAscending};
ghost use Rattle.lf_witness.specs.Strict.{IsSet};
ghost use Rattle.lf_witness.specs.StrictRuns.{InOrder};
ghost use Rattle.lf_strict.specs.views.Signed.{ArePartnered, IsSignature, TellsApart, is_one_of, is_signed};

use crate::apart::{apart, together};
use crate::choosing::SignatureLabels;
use crate::lending::Samples;
use lf_ast::{LabelSet, Matching};
use lf_base::Memory;
use std::alloc::Global;

/// The signature of each sample.
fn each_signature(
    alloc: Global,
    matching: &Matching,
    samples: &[LabelSet],
) -> Result<Vec<LabelSet>, Memory>
    ensures { IfOk result (λ made. AllZip (IsSignature matching.now) samples.now made.items) }
{
    let mut made = Vec::with_capacity(alloc, samples.len())?;
    for sample in samples {
        made.push(signature(matching, sample)?)?;
    }
    Ok(made)
}

/// The signature of a sample: the labels that are matched, with their texts. No text of a sample is empty, so equal signatures are one label set.
fn signature(matching: &Matching, sample: &LabelSet) -> Result<LabelSet, Memory>
    ensures { IfOk result (IsSignature matching.now sample.now) }
{
    let _count = sample.len();
    sample.kept(&SignatureLabels { matching })
}

/// Whether no two of the samples have equal signatures.
pub fn are_apart(alloc: Global, matching: &Matching, samples: &Samples<'_>) -> Result<bool, Memory>
    requires { IsAscending samples.now }
    ensures { IfOk result (TellsApart matching.now samples.now) }
{
    if samples.len() < 2 {
        return Ok(true);
    }
    let made = each_signature(alloc, matching, samples.as_slice())?;
    Ok(apart(made).is_some())
}

/// The left samples that have a partner on the right, or those that have none where that is wanted, in ascending order.
pub fn by_partner<'a>(
    alloc: Global,
    matching: &Matching,
    left: &Samples<'_>,
    right: &Samples<'_>,
    wanted: bool,
) -> Result<Samples<'a>, Memory>
    requires { IsAscending left.now }
    ensures { IfOk result (λ set. InOrder (IsSet (ArePartnered wanted matching.now left.now right.now)) (Some set)) }
{
    let signatures = together(each_signature(alloc, matching, right.as_slice())?);
    with_signature(
        alloc,
        matching,
        left.as_slice(),
        signatures.as_slice(),
        wanted,
    )
}

/// The left samples, and the right ones that have no partner on the left, in ascending order.
pub fn either<'a>(
    alloc: Global,
    matching: &Matching,
    left: &Samples<'_>,
    right: &Samples<'_>,
) -> Result<Samples<'a>, Memory>
    requires { IsAscending right.now }
    ensures { IfOk result (λ set. InOrder (IsSet (AreEither matching.now left.now right.now)) (Some set)) }
{
    let others = by_partner(alloc, matching, right, left, false)?;
    let mut samples = Vec::new(alloc);
    push_each(&mut samples, left.as_slice())?;
    push_each(&mut samples, others.as_slice())?;
    Ok(together(samples))
}

/// Appends samples, and may have appended some where it fails.
pub fn push_each(all: &mut Vec<LabelSet>, samples: &[LabelSet]) -> Result<(), Memory>
    ensures { OnOk result (all.new.items ≡ all.old.items ++ samples.now) }
{
    for sample in samples {
        all.push(sample.copy()?)?;
    }
    Ok(())
}

/// The samples whose signature is one of these, or those whose signature isn't.
fn with_signature<'a>(
    alloc: Global,
    matching: &Matching,
    samples: &[LabelSet],
    signatures: &[LabelSet],
    wanted: bool,
) -> Result<Samples<'a>, Memory>
    requires { IsAscending signatures.now }
    ensures kept { IfOk result (λ kept. kept ≡ filter (is_signed matching.now signatures.now wanted) samples.now) }
    ensures texts { IfOk result (λ kept. (s : Labels) → Contains samples.now s → HasTexts s) }
{
    let mut kept = Vec::new(alloc);
    for sample in samples {
        if is_signed(matching, signatures, wanted, sample)? {
            kept.push(sample.copy()?)?;
        }
    }
    Ok(Samples::from_vec(kept))
}

/// Whether the signature of a sample is one of these, or isn't where that is wanted.
fn is_signed(
    matching: &Matching,
    signatures: &[LabelSet],
    wanted: bool,
    sample: &LabelSet,
) -> Result<bool, Memory>
    requires { IsAscending signatures.now }
    ensures signed { IfOk result (λ is. is ≡ is_signed matching.now signatures.now wanted sample.now) }
    ensures texts { HasNoEmptyText (entries sample.now) }
{
    let _count = sample.len();
    let signature = sample.kept(&SignatureLabels { matching })?;
    let found = is_one_of(signatures, &signature);
    Ok(if wanted { found } else { !found })
}

/// Whether a label set is one of these in ascending order.
fn is_one_of(sorted: &[LabelSet], sought: &LabelSet) -> bool
    requires { IsAscending sorted.now }
    ensures { result ≡ is_one_of sorted.now sought.now }
{
    sorted.binary_search(sought).is_ok()
}
