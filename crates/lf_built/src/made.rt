//! What was built.
ghost use Rattle.std.specs.Prelude.{◌≡◌, ◌<◌, ◌-◌, ◌^◌, ◌∷◌, [], OnOk};
ghost use Rattle.lf_trials.specs.Building.{both};
ghost use Rattle.lf_built.specs.views.Works.{so_far};

use lf_ast::LabelSet;
use lf_base::Memory;
use lf_deps::rule_number;
use std::alloc::Global;

/// Series and steps in the order in which they were added, and how many selectors were built.
#[derive(Drop)]
pub struct BuiltSeries {
    pub series: Vec<LabelSet>,
    pub steps: Vec<u32>,
    pub selectors: usize,
}

impl BuiltSeries {
    /// Nothing.
    pub fn nothing(alloc: Global) -> BuiltSeries
        ensures { so_far result ≡ record { series = []; steps = []; selectors = 0 } }
    {
        BuiltSeries {
            series: Vec::new(alloc),
            steps: Vec::new(alloc),
            selectors: 0,
        }
    }

    /// Adds a selector with its series.
    pub fn add_series(&mut self, series: LabelSet) -> Result<(), Memory>
        requires { self.old.selectors < 2 ^ 64 - 1 }
        ensures { OnOk result (so_far self.new ≡ both (so_far self.old) (record { series = series ∷ []; steps = []; selectors = 1 })) }
    {
        self.series.push(series)?;
        self.selectors += 1;
        Ok(())
    }

    /// Counts a selector.
    pub fn add_selector(&mut self)
        requires { self.old.selectors < 2 ^ 64 - 1 }
        ensures { so_far self.new ≡ both (so_far self.old) (record { series = []; steps = []; selectors = 1 }) }
    {
        self.selectors += 1;
    }

    /// Adds the step of a rule. Want of memory where its number doesn't fit a `u32`.
    pub fn add_step(&mut self, number: usize) -> Result<(), Memory>
        ensures { OnOk result (so_far self.new ≡ both (so_far self.old) (record { series = []; steps = number ∷ []; selectors = 0 })) }
    {
        let number = rule_number(number)?;
        self.steps.push(number)?;
        Ok(())
    }
}
