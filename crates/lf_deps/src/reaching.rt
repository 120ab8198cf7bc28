//! The rules that record names, and names in common.
ghost use Rattle.std.specs.Prelude.{◌≡◌, ◌<◌, ◌↔◌, ◌++◌, ℕ, true, false, IfOk, OnOk};
ghost use Rattle.std.specs.List.{Contains};
ghost use Rattle.lf_ast.specs.Labels.{Bytes};
ghost use Rattle.lf_deps.specs.views.Index.{makers_at};

use crate::ordering::rule_number;
use crate::sources::Sources;
use lf_base::{Memory, Seq};
use lf_classes::TextSet;
use std::alloc::Global;

/// The numbers of the rules that record the name at one of these places, in the order of the places. Want of memory where one of them doesn't fit a `u32`.
pub(crate) fn makers_at_all(
    alloc: Global,
    sources: &Sources,
    places: &[usize],
) -> Result<Seq<u32>, Memory>
    ensures { IfOk result (λ found. (k : ℕ) → Contains found k ↔ ((place : ℕ) × Contains places.now place × Contains (makers_at sources.now place) k)) }
{
    let mut found = Seq::new(alloc);
    for place in places {
        add_all(&mut found, sources.makers_at(*place))?;
    }
    Ok(found)
}

/// Adds numbers.
fn add_all(found: &mut Seq<u32>, numbers: &[usize]) -> Result<(), Memory>
    ensures { OnOk result (found.new ≡ found.old ++ numbers.now) }
{
    for number in numbers {
        found.push(rule_number(*number)?)?;
    }
    Ok(())
}

/// Whether no text is in both.
pub(crate) fn have_none_common(left: &TextSet, right: &TextSet) -> bool
    ensures common { result ≡ false → (name : Bytes) × Contains left.now name × Contains right.now name }
    ensures none { result ≡ true → (name : Bytes) → Contains left.now name → Contains right.now name → ⊥ }
{
    for k in 0..left.len() {
        if right.place(left.get(k).as_str()) < right.len() {
            return false;
        }
    }
    true
}
