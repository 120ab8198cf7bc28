//! What a trial shows.
ghost use Rattle.std.specs.Prelude.{◌≡◌, ◌<◌, ℕ, cond, length, option_map, IfOk, Some};
ghost use Rattle.std.specs.List.{Contains};
ghost use Rattle.std.specs.Option.{option_copied};
ghost use Rattle.lf_ast.specs.Rules.{rule_trees};
ghost use Rattle.lf_semantics.specs.Texts.{value_of};
ghost use Rattle.lf_trials.specs.Candidates.{has_presence};
ghost use Rattle.lf_worlds.specs.views.Tried.{AreBelow, AreSamplesOf, IsEvaluatedAt, IsEvaluatedIf, IsEvaluatedTrial, IsWorldIfShown, IsWorldShown, first_with, world_with};

use lf_ast::{LabelSet, Rule, World};
use lf_base::{Memory, Seq, Text};
use lf_candidates::Trial;
use lf_classes::Universe;
use lf_strict::strict_after;
use std::alloc::Global;

/// The world of a trial, if there is one and it shows a presence of a label on a sample of rule `i`.
pub fn world_if_shown(
    alloc: Global,
    universe: &Universe,
    rules: &Seq<Rule>,
    i: u32,
    label: &Text,
    presence: bool,
    trial: Option<Trial>,
) -> Result<Option<World>, Memory>
    requires rule { i < length rules.now }
    requires evaluated { IsEvaluatedAt (rule_trees rules.now) i }
    requires steps { AreBelow (length rules.now) trial }
    ensures { IfOk result (IsWorldIfShown (rule_trees rules.now) i label.now presence trial) }
{
    match trial {
        Some(trial) => world_of(alloc, universe, rules, i, label, presence, trial),
        None => Ok(None),
    }
}

/// The world of a trial that shows a presence of a label on a sample of rule `i`: its steps and then the rule itself evaluate strictly, and the sample is the first with
/// that presence.
fn world_of(
    alloc: Global,
    universe: &Universe,
    rules: &Seq<Rule>,
    i: u32,
    label: &Text,
    presence: bool,
    trial: Trial,
) -> Result<Option<World>, Memory>
    requires rule { i < length rules.now }
    requires evaluated { IsEvaluatedAt (rule_trees rules.now) i }
    requires steps { (k : ℕ) → Contains trial.steps k → k < length rules.now }
    ensures { IfOk result (IsWorldShown (rule_trees rules.now) i label.now presence trial) }
{
    match samples_of(alloc, universe, rules, i, &trial)? {
        Some(samples) => Ok(Evaluated { trial, samples }.into_world(label.as_str(), presence)),
        None => Ok(None),
    }
}

/// A trial with the samples that rule `i` strictly gives behind its steps, if there is one and it evaluates.
pub fn evaluate_if(
    alloc: Global,
    universe: &Universe,
    rules: &Seq<Rule>,
    i: u32,
    trial: Option<Trial>,
) -> Result<Option<Evaluated>, Memory>
    requires rule { i < length rules.now }
    requires evaluated { IsEvaluatedAt (rule_trees rules.now) i }
    requires steps { AreBelow (length rules.now) trial }
    ensures { IfOk result (IsEvaluatedIf (rule_trees rules.now) i trial) }
{
    match trial {
        Some(trial) => evaluate(alloc, universe, rules, i, trial),
        None => Ok(None),
    }
}

/// A trial with the samples that rule `i` strictly gives behind its steps, if it evaluates.
fn evaluate(
    alloc: Global,
    universe: &Universe,
    rules: &Seq<Rule>,
    i: u32,
    trial: Trial,
) -> Result<Option<Evaluated>, Memory>
    requires rule { i < length rules.now }
    requires evaluated { IsEvaluatedAt (rule_trees rules.now) i }
    requires steps { (k : ℕ) → Contains trial.steps k → k < length rules.now }
    ensures { IfOk result (IsEvaluatedTrial (rule_trees rules.now) i trial) }
{
    match samples_of(alloc, universe, rules, i, &trial)? {
        Some(samples) => Ok(Some(Evaluated { trial, samples })),
        None => Ok(None),
    }
}

/// The samples that rule `i` strictly gives behind the steps of a trial.
fn samples_of(
    alloc: Global,
    universe: &Universe,
    rules: &Seq<Rule>,
    i: u32,
    trial: &Trial,
) -> Result<Option<Seq<LabelSet>>, Memory>
    requires rule { i < length rules.now }
    requires evaluated { IsEvaluatedAt (rule_trees rules.now) i }
    requires steps { (k : ℕ) → Contains trial.now.steps k → k < length rules.now }
    ensures { IfOk result (AreSamplesOf (rule_trees rules.now) i trial.now) }
{
    let rule = rules.get(i as usize);
    let (series, steps) = (&trial.series, &trial.steps);
    strict_after(alloc, universe, series, rules, steps, &rule.expr)
}

/// A trial, and the samples that its rule strictly gives behind the steps.
#[derive(Drop)]
pub struct Evaluated {
    trial: Trial,
    samples: Seq<LabelSet>,
}

impl Evaluated {
    /// The world that shows a presence of a label: the sample is the first with that presence.
    fn into_world(self, label: &str, presence: bool) -> Option<World>
        ensures { result ≡ option_map (world_with self.trial) (first_with label.now presence self.samples) }
    {
        match first_with(self.samples, label, presence) {
            Some(sample) => {
                let Trial { series, steps } = self.trial;
                Some(World {
                    series,
                    steps,
                    sample,
                })
            }
            None => None,
        }
    }

    /// The same world, as a copy.
    pub fn world(&self, label: &str, presence: bool) -> Result<Option<World>, Memory>
        ensures { IfOk result (λ world. world ≡ option_map (world_with self.now.trial) (first_with label.now presence self.now.samples)) }
    {
        match first_of(self.samples.as_slice(), label, presence) {
            Some(sample) => Ok(Some(World {
                series: self.trial.series.copy()?,
                steps: self.trial.steps.copy()?,
                sample: sample.copy()?,
            })),
            None => Ok(None),
        }
    }
}

/// The first sample with a presence of a label, taken out of the samples, which are gone through from the last one on.
fn first_with(mut samples: Seq<LabelSet>, label: &str, presence: bool) -> Option<LabelSet>
    ensures { result ≡ first_with label.now presence samples }
{
    let mut first = None;
    while let Some(sample) = samples.pop() {
        first = this_or(sample, label, presence, first);
    }
    first
}

/// A sample where it has a presence of a label, and else what there was before.
fn this_or(
    sample: LabelSet,
    label: &str,
    presence: bool,
    before: Option<LabelSet>,
) -> Option<LabelSet>
    ensures { result ≡ cond (has_presence presence (value_of sample label.now)) (Some sample) before }
{
    if is_with(&sample, label, presence) {
        Some(sample)
    } else {
        before
    }
}

/// The first sample with a presence of a label, where it stands.
fn first_of<'a>(samples: &'a [LabelSet], label: &str, presence: bool) -> Option<&'a LabelSet>
    ensures { option_copied result ≡ first_with label.now presence samples.entry.now }
{
    for sample in samples {
        if is_with(sample, label, presence) {
            return Some(sample);
        }
    }
    None
}

/// Whether a sample has a presence of a label.
fn is_with(sample: &LabelSet, label: &str, presence: bool) -> bool
    ensures { result ≡ has_presence presence (value_of sample.now label.now) }
{
    sample.get(label).is_some() == presence
}
