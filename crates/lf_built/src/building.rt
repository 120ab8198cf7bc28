//! The building of a world, task by task.
ghost use Rattle.std.specs.Prelude.{◌≤◌, Option, IfOk};
ghost use Rattle.lf_trials.specs.Building.{Building};
ghost use Rattle.lf_built.specs.views.Indexed.{IsPrepared};
ghost use Rattle.lf_built.specs.views.Works.{Builds, IsOutcome};

use crate::made::BuiltSeries;
use crate::prepared::Prepared;
use crate::work::Work;
use lf_base::Memory;
use std::alloc::Global;

impl<'a> Prepared<'a> {
    /// Does all tasks, and tells what was built, or that there is no world of so few selectors.
    pub(crate) fn build(
        &self,
        alloc: Global,
        most: usize,
        mut work: Work<'a>,
    ) -> Result<Option<BuiltSeries>, Memory>
        requires known { IsPrepared self.now }
        requires few { work.made.selectors ≤ most }
        requires builds { (whole : Option Building) × Builds self.now whole work }
        ensures { (whole : Option Building) → Builds self.now whole work.entry → IfOk result (IsOutcome most whole) }
    {
        'tasks: loop {
            match work.stack.pop() {
                Some(task) => {
                    if !self.perform(alloc, most, task, &mut work)? {
                        return Ok(None);
                    }
                }
                None => return Ok(Some(work.made)),
            }
        }
    }
}
