//! How much the patterns of all files of a run may count, so that reading them takes seconds and no minutes.
ghost use Rattle.std.specs.Prelude.{◌≤◌, ◌<◌, OnErr, OnOk};
ghost use Rattle.std.specs.List.{sum_by};
ghost use Rattle.lf_judge.specs.Allowance.{most_in_all};
ghost use Rattle.lf_judge.specs.views.Accepting.{taken_in};

use crate::accepting::Counted;
use lf_base::Memory;
use std::sync::atomic::{AtomicU64, Ordering};

/// What the patterns of all files may count together.
const MOST: u64 = 4_250_000;

/// `Memory` where more was taken for these files than for those of a run may be.
#[tactic(auto, using(crate::proofs::Found::taken_more, crate::proofs::Found::over_so))]
pub fn allow(files: &[Counted]) -> Result<(), Memory>
    ensures allowed { OnOk result (sum_by taken_in files.now ≤ most_in_all) }
    ensures refused { OnErr result (most_in_all < sum_by taken_in files.now) }
{
    let mut left = MOST;
    for file in files {
        match left.checked_sub(file.taken) {
            Some(less) => left = less,
            None => return Err(Memory),
        }
    }
    Ok(())
}

/// What workers have taken so far for the files of a run.
///
/// It ends their work early, and decides nothing: where more was taken already than may be, so it is of all files, and `allow`
/// refuses them whoever accepted which. So the run ends in the same way for every number of workers and every order of their work.
#[derive(Drop)]
pub struct TakenSoFar {
    sum: AtomicU64,
}

impl TakenSoFar {
    /// Nothing yet.
    pub fn nothing() -> TakenSoFar {
        TakenSoFar {
            sum: AtomicU64::new(0),
        }
    }

    /// Counts what was taken for a file.
    pub fn add(&self, taken: u64) {
        self.sum.fetch_add(taken, Ordering::SeqCst);
    }

    /// Whether it is more than may be taken for the files of a run.
    pub fn is_over(&self) -> bool {
        self.sum.load(Ordering::SeqCst) > MOST
    }
}
