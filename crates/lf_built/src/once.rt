//! Label sets, each once.
ghost use Rattle.std.specs.Prelude.{◌≡◌, ◌∷◌, ◌++◌, [], cond, true, IfOk, OnOk};
ghost use Rattle.lf_trials.specs.Building.{each_once};

use lf_ast::LabelSet;
use lf_base::{Memory, Seq};
use std::alloc::Global;
use std::collections::BTreeSet;

/// Label sets, each once, in the order in which they come first. One or two, as most worlds have, are neither looked up nor copied.
pub fn each_once(alloc: Global, all: Vec<LabelSet>) -> Result<Seq<LabelSet>, Memory>
    ensures { IfOk result (λ once. once ≡ each_once all.items) }
{
    if stand_once(all.as_slice()) {
        return Ok(Seq::from_vec(all));
    }
    let mut seen = BTreeSet::new(alloc);
    let mut once = Seq::new(alloc);
    for series in &all {
        let added = seen.insert(series.copy()?)?;
        push_if(added, series, &mut once)?;
    }
    Ok(once)
}

/// Whether these are one label set at most, or two that differ. Of more it isn't told.
fn stand_once(all: &[LabelSet]) -> bool
    ensures { result ≡ true → all.now ≡ each_once all.now }
{
    if all.len() < 2 {
        return true;
    }
    all.len() == 2 && all[1].cmp(&all[0]).is_ne()
}

/// Puts a label set behind the others where `added` is true.
fn push_if(added: bool, series: &LabelSet, once: &mut Seq<LabelSet>) -> Result<(), Memory>
    ensures { OnOk result (once.new ≡ once.old ++ cond added (series.now ∷ []) []) }
{
    if added {
        return once.push(series.copy()?);
    }
    Ok(())
}
