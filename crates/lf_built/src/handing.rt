//! What an expression is built from.
ghost use Rattle.std.specs.Prelude.{◌≡◌, length};
ghost use Rattle.lf_trials.specs.Built.{handed};
ghost use Rattle.lf_trials.specs.Given.{Given};
ghost use Rattle.lf_candidates.specs.views.ClassTexts.{Stands, StandsFor};
ghost use Rattle.lf_built.specs.views.Indexed.{IsPrepared, env_of, forks_of, trees_of, universe_of};
ghost use Rattle.lf_built.specs.views.Spots.{IsSpot, tree_at};

use crate::prepared::Prepared;
use crate::spots::Spot;
use lf_candidates::LabelTexts;

impl<'a> Prepared<'a> {
    /// The texts that an expression is built from: these where it holds a fork, and else these completed by its row, if they are.
    pub(crate) fn handed(&self, spot: &Spot<'a>, texts: LabelTexts) -> Option<LabelTexts>
        requires known { IsPrepared self.now }
        requires spot { IsSpot (trees_of self.now) spot.now }
        requires count { length texts ≡ length (universe_of self.now).named }
        ensures { (D : Given) → Stands (universe_of self.now) texts D → StandsFor (universe_of self.now) result (handed (universe_of self.now) (env_of self.now) (trees_of self.now) (forks_of self.now) (tree_at spot.now) D) }
    {
        if self.is_fork(spot) {
            Some(texts)
        } else {
            texts.completed_by(self.universe, self.packed_row(spot))
        }
    }
}
