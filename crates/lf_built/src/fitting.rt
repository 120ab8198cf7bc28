//! Which rule makes a recorded name.
ghost use Rattle.std.specs.Prelude.{◌≡◌, None, Option, Some, false, reverse, IfSome};
ghost use Rattle.lf_trials.specs.Built.{fits};
ghost use Rattle.lf_trials.specs.Given.{Given};
ghost use Rattle.lf_trials.specs.Reached.{first_rule, is_marked};
ghost use Rattle.lf_candidates.specs.views.ClassTexts.{Stands};
ghost use Rattle.lf_built.specs.views.Indexed.{IsPrepared, env_of, forks_of, trees_of, universe_of};
ghost use Rattle.lf_built.specs.views.Fitting.{IsFirstRule};

use crate::marks::Marks;
use crate::prepared::Prepared;
use lf_candidates::LabelTexts;

impl<'a> Prepared<'a> {
    /// The number of the first rule of a name that isn't marked and whose row, as it is recorded, holds the texts.
    pub(crate) fn first_fitting(
        &self,
        marked: &Marks,
        name: &str,
        texts: &LabelTexts,
    ) -> Option<usize>
        requires known { IsPrepared self.now }
        requires texts { (D : Given) × Stands (universe_of self.now) texts.now D }
        ensures first { (D : Given) → Stands (universe_of self.now) texts.now D → IsFirstRule (trees_of self.now) (first_rule (fits (universe_of self.now) (env_of self.now) (trees_of self.now) (forks_of self.now) (reverse marked.now) name.now D) 0 (trees_of self.now)) result }
        ensures free { IfSome result (λ number. is_marked (reverse marked.now) number ≡ false) }
    {
        for number in self.sources.makers_of(name) {
            if !marked.has(*number) && texts.is_held_by(self.universe, self.recorded_row(*number)) {
                return Some(*number);
            }
        }
        None
    }
}
