//! Lists of label sets in ascending order, each once.
ghost use Rattle.std.specs.Prelude.{◌≡◌, ◌+◌, ◌<◌, ℕ, slice_get, true, false, Some};
ghost use Rattle.std.specs.List.Sorted.{IsPermutation, IsSorted};
ghost use Rattle.std.specs.Ordering.{eq_by_cmp};
ghost use Rattle.lf_ast.specs.Labels.{Labels};
ghost use Rattle.lf_ast.specs.LabelOrder.{labels_cmp};
ghost use Rattle.lf_witness.specs.Ascending.{IsAscending};
ghost use Rattle.lf_witness.specs.Strict.{AreSame};
ghost use Rattle.lf_strict.specs.views.Apart.{AreApart};

use crate::lending::Samples;
use lf_ast::LabelSet;

/// These label sets in ascending order, unless two of them are equal.
pub fn apart<'a>(made: Vec<LabelSet>) -> Option<Samples<'a>>
    ensures { AreApart made.items result }
{
    let made = sorted(made);
    if has_equal_neighbours(made.as_slice()) {
        None
    } else {
        Some(Samples::from_vec(made))
    }
}

/// These label sets in ascending order, of which equal ones count once.
pub fn together<'a>(made: Vec<LabelSet>) -> Samples<'a>
    ensures same { AreSame made.items result }
    ensures ascends { IsAscending result }
{
    let mut made = sorted(made);
    made.dedup();
    Samples::from_vec(made)
}

/// These label sets in order. Most often there is one.
fn sorted(mut made: Vec<LabelSet>) -> Vec<LabelSet>
    ensures permutation { IsPermutation made.items result.items }
    ensures sorted { IsSorted labels_cmp result.items }
{
    if made.len() > 1 {
        made.sort_unstable();
    }
    made
}

/// Whether two label sets that stand beside one another are equal.
fn has_equal_neighbours(sorted: &[LabelSet]) -> bool
    ensures some { result ≡ true → (k : ℕ) × (s : Labels) × (t : Labels) × (slice_get sorted.now k ≡ Some s) × (slice_get sorted.now (k + 1) ≡ Some t) × (eq_by_cmp labels_cmp s t ≡ true) }
    ensures none { result ≡ false → (k : ℕ) (s t : Labels) → slice_get sorted.now k ≡ Some s → slice_get sorted.now (k + 1) ≡ Some t → eq_by_cmp labels_cmp s t ≡ false }
{
    for k in 1..sorted.len() {
        if sorted[k - 1] == sorted[k] {
            return true;
        }
    }
    false
}
