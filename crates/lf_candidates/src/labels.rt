//! The labels of a universe by their names.
ghost use Rattle.std.specs.Prelude.{◌≡◌, IfOk};
ghost use Rattle.lf_trials.specs.Candidates.{labels_in};

use crate::candidates::other_name;
use lf_base::{Memory, Text};
use lf_classes::Universe;
use std::alloc::Global;

/// The names of the labels, by their numbers, and last the one that stands for `*`.
pub fn label_names(alloc: Global, universe: &Universe) -> Result<Vec<Text>, Memory>
    ensures { IfOk result (λ names. names.items ≡ labels_in universe.now) }
{
    let mut names = Vec::new(alloc);
    for label in 0..universe.labels() - 1 {
        names.push(universe.name(label).copy()?)?;
    }
    names.push(other_name(alloc, universe)?)?;
    Ok(names)
}
