//! The order of open constructs.
ghost use Rattle.std.specs.Prelude.{◌≡◌, map, ℕ, IfOk};
ghost use Rattle.lf_laws.specs.Ascending.{IsInOrder};
ghost use Rattle.lf_open.specs.OpenList.{key_of, open_cmp};
ghost use Rattle.lf_open.specs.views.InOrder.{AreOfRule, keyed};

use crate::open_at::OpenAt;
use lf_base::{Keyed, Memory, Seq};
use std::alloc::Global;

/// The open constructs of a rule in their order, each once.
pub(crate) fn in_order(alloc: Global, found: Vec<OpenAt>) -> Result<Vec<OpenAt>, Memory>
    ensures { (rule : ℕ) → AreOfRule rule found.items → IfOk result (λ sorted. IsInOrder open_cmp found.items sorted.items) }
{
    let mut keyed = with_keys(alloc, found)?;
    keyed.sort_unstable();
    keyed.dedup();
    without_keys(alloc, keyed)
}

/// The open constructs with their keys.
fn with_keys(alloc: Global, found: Vec<OpenAt>) -> Result<Vec<Keyed<OpenAt>>, Memory>
    ensures { IfOk result (λ all. all.items ≡ map keyed found.items) }
{
    let mut all = Vec::new(alloc);
    for item in found {
        let key = key_of(alloc, &item)?;
        all.push(Keyed { key, item })?;
    }
    Ok(all)
}

/// What an open construct is ordered by: the start of its span, the number of its construct, and the end of its span.
fn key_of(alloc: Global, item: &OpenAt) -> Result<Seq<u32>, Memory>
    ensures { IfOk result (λ key. key ≡ key_of item.now) }
{
    let mut key = Seq::new(alloc);
    key.push(item.span.start)?;
    key.push(u32::from(item.construct.number()))?;
    key.push(item.span.end)?;
    Ok(key)
}

/// The open constructs without their keys.
fn without_keys(alloc: Global, keyed: Vec<Keyed<OpenAt>>) -> Result<Vec<OpenAt>, Memory>
    ensures { IfOk result (λ found. found.items ≡ map (λ k. k.item) keyed.items) }
{
    let found = keyed.into_iter().map(|keyed| keyed.item).collect(alloc)?;
    Ok(found)
}
