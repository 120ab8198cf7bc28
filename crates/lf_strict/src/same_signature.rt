//! Samples with the same signature.
ghost use Rattle.std.specs.Prelude.{◌≡◌, true, false, slice_get, Some, ℕ};
ghost use Rattle.std.specs.FinMap.{entries};
ghost use Rattle.std.specs.Ordering.{eq_by_cmp};
ghost use Rattle.lf_ast.specs.Labels.{Bytes, HasNoEmptyText};
ghost use Rattle.lf_ast.specs.LabelOrder.{labels_cmp};
ghost use Rattle.lf_semantics.specs.Grouped.{SameSignature, signs};
ghost use Rattle.lf_semantics.specs.Texts.{value_of};
ghost use Rattle.lf_strict.specs.views.Paired.{signature_of};

use crate::selecting::text_of;
use lf_ast::{LabelSet, Matching};
use lf_nodes::signs;

/// Whether the signatures of two samples are equal. They aren't made.
pub fn have_same_signature(matching: &Matching, sample: &LabelSet, other: &LabelSet) -> bool
    ensures { result ≡ eq_by_cmp labels_cmp (signature_of matching.now sample.now) (signature_of matching.now other.now) }
{
    agrees(matching, sample, other) && agrees(matching, other, sample)
}

/// Whether another sample has the text of each label of a sample that is matched.
fn agrees(matching: &Matching, sample: &LabelSet, other: &LabelSet) -> bool
    ensures each { result ≡ true → (k : ℕ) (e : Bytes × Bytes) → slice_get (entries sample.now) k ≡ Some e → signs matching.now e.0 ≡ true → value_of sample.now e.0 ≡ value_of other.now e.0 }
    ensures differs { result ≡ false → SameSignature matching.now sample.now other.now → ⊥ }
    ensures texts { HasNoEmptyText (entries sample.now) }
{
    for k in 0..sample.len() {
        let label = sample.pair(k).0.as_str();
        if signs(matching, label) && text_of(sample, label) != text_of(other, label) {
            return false;
        }
    }
    true
}
