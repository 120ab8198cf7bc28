//! Values in the order of keys.
ghost use Rattle.std.specs.Prelude.{refl};
ghost use Rattle.std.specs.Cmp.{eq_by_cmp_equiv, on_total, partial_equiv_from_equiv, partial_order_from_total};
ghost use Rattle.std.specs.Cmp.Lexicographic.{nat_list_cmp_total};
ghost use Rattle.std.specs.Ordering.{as_partial_cmp, eq_by_cmp};
ghost use Rattle.lf_base.specs.views.Keyed.{items_of, keyed_cmp};

use crate::Seq;
use std::cmp::Ordering;

/// A value with the numbers that it is ordered by: of two, the first numbers that differ decide, and the shorter key stands first where none do. Values with equal keys are taken for equal.
#[derive(Drop)]
pub struct Keyed<T> {
    /// What decides the order.
    pub key: Seq<u32>,
    /// The value itself, which isn't looked at.
    pub item: T,
}

impl<T> PartialEq for Keyed<T> {
    ghost eq = { eq_by_cmp keyed_cmp };

    ghost laws = { partial_equiv_from_equiv (eq_by_cmp_equiv (on_total items_of nat_list_cmp_total)) };

    fn eq(&self, other: &Keyed<T>) -> bool {
        self.cmp(other).is_eq()
    }
}

impl<T> Eq for Keyed<T> {
    ghost laws = { eq_by_cmp_equiv (on_total items_of nat_list_cmp_total) };
}

impl<T> PartialOrd for Keyed<T> {
    ghost partial_cmp = { as_partial_cmp keyed_cmp };

    ghost laws = { partial_order_from_total (on_total items_of nat_list_cmp_total) };

    fn partial_cmp(&self, other: &Keyed<T>) -> Option<Ordering> {
        Some(self.cmp(other))
    }
}

impl<T> Ord for Keyed<T> {
    ghost cmp = { keyed_cmp };

    ghost total = { on_total items_of nat_list_cmp_total };

    ghost matches_partial_cmp = { λ s t. refl };

    ghost matches_eq = { λ s t. refl };

    fn cmp(&self, other: &Keyed<T>) -> Ordering {
        self.key.as_slice().cmp(other.key.as_slice())
    }
}
