//! The order of label sets.
ghost use Rattle.std.specs.Prelude.{◌≡◌, map, refl};
ghost use Rattle.std.specs.Cmp.{eq_by_cmp_equiv, on_total, partial_equiv_from_equiv, partial_order_from_total};
ghost use Rattle.std.specs.Cmp.Lexicographic.{lists_total, nat_list_cmp_total, slice_cmp};
ghost use Rattle.std.specs.Ordering.{as_partial_cmp, eq_by_cmp, nat_cmp};
ghost use Rattle.lf_ast.specs.LabelOrder.{labels_cmp, pair_of, pairs_cmp, pairs_of};

use crate::LabelSet;
use lf_base::Text;
use std::cmp::Ordering;

impl PartialEq for LabelSet {
    ghost eq = { eq_by_cmp labels_cmp };

    ghost laws = { partial_equiv_from_equiv (eq_by_cmp_equiv (on_total pairs_of (lists_total (lists_total nat_list_cmp_total)))) };

    fn eq(&self, other: &LabelSet) -> bool {
        self.cmp(other).is_eq()
    }
}

impl Eq for LabelSet {
    ghost laws = { eq_by_cmp_equiv (on_total pairs_of (lists_total (lists_total nat_list_cmp_total))) };
}

impl PartialOrd for LabelSet {
    ghost partial_cmp = { as_partial_cmp labels_cmp };

    ghost laws = { partial_order_from_total (on_total pairs_of (lists_total (lists_total nat_list_cmp_total))) };

    fn partial_cmp(&self, other: &LabelSet) -> Option<Ordering> {
        Some(self.cmp(other))
    }
}

/// By the first pair of a label and its text that differs, of pairs by the label and then by the text, and of texts by their bytes. A label set that ends before any pair
/// differs comes first.
impl Ord for LabelSet {
    ghost cmp = { labels_cmp };

    ghost total = { on_total pairs_of (lists_total (lists_total nat_list_cmp_total)) };

    ghost matches_partial_cmp = { λ s t. refl };

    ghost matches_eq = { λ s t. refl };

    fn cmp(&self, other: &LabelSet) -> Ordering {
        order_of(self.entries(), other.entries())
    }
}

/// Which of two lists of entries comes first.
fn order_of(some: &[(Text, Text)], others: &[(Text, Text)]) -> Ordering
    ensures { result ≡ pairs_cmp (map pair_of some.now) (map pair_of others.now) }
{
    for k in 0..some.len().min(others.len()) {
        match entry_order(&some[k], &others[k]) {
            Ordering::Less => return Ordering::Less,
            Ordering::Equal => {}
            Ordering::Greater => return Ordering::Greater,
        }
    }
    some.len().cmp(&others.len())
}

/// Which of two entries comes first: by the name, and then by the text.
fn entry_order(some: &(Text, Text), other: &(Text, Text)) -> Ordering
    ensures { result ≡ slice_cmp (slice_cmp nat_cmp) (pair_of some.now) (pair_of other.now) }
{
    some.0
        .as_str()
        .cmp(other.0.as_str())
        .then(some.1.as_str().cmp(other.1.as_str()))
}
