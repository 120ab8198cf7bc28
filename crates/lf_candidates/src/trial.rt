//! What is tried with a rule.

use lf_ast::LabelSet;
use lf_base::Seq;
use std::marker::Model;

/// What is tried: scraped series, and the numbers of the rules that are evaluated over them, one behind the other.
#[derive(Drop)]
pub struct Trial {
    pub series: Seq<LabelSet>,
    pub steps: Seq<u32>,
}

impl Model for Trial {
    ghost use Rattle.lf_trials.specs.Reached.{Trial};
    ghost use Rattle.lf_candidates.specs.views.Told.{trial_code};

    ghost Value = { Trial };

    ghost coded = { trial_code };

    ghost view = { λ t. record { series = t.series; steps = t.steps } };
}
