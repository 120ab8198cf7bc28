//! What rules and their universe say of scraped series.
ghost use Rattle.std.specs.Prelude.{◌≡◌, ◌<◌, ◌+◌, length, IfOk};
ghost use Rattle.lf_ast.specs.Rules.{rule_trees};
ghost use Rattle.lf_classes.specs.Limits.{IsWithin};
ghost use Rattle.lf_deps.specs.views.Sources.{IsSourcesOf};
ghost use Rattle.lf_semantics.specs.Listing.{named_at};
ghost use Rattle.lf_trials.specs.Names.{is_scraped_name, name_for};
ghost use Rattle.lf_trials.specs.Reached.{is_recorded};
ghost use Rattle.lf_candidates.specs.views.ClassTexts.{text_at};

use lf_ast::{Matcher, Rule};
use lf_base::{Memory, Seq, Text};
use lf_candidates::{is_recorded, is_scraped_name, name_for};
use lf_classes::Universe;
use lf_deps::Sources;
use std::alloc::Global;
use std::marker::Model;

/// The label that is the metric name.
const METRIC: u32 = 0;

/// Rules, their universe, and their index.
#[derive(Drop)]
pub struct Setting<'a> {
    universe: &'a Universe,
    rules: &'a Seq<Rule>,
    sources: &'a Sources,
}

impl<'a> Model for Setting<'a> {
    ghost use Rattle.std.specs.Coded.{codes};
    ghost use Rattle.lf_ast.specs.Rules.{rule_trees};
    ghost use Rattle.lf_ast.specs.contracts.rule.Rule as rule;
    ghost use Rattle.lf_classes.specs.Limits.{IsWithin};
    ghost use Rattle.lf_deps.specs.views.Sources.{IsSourcesOf};
    ghost use Rattle.lf_uniform.specs.views.Settings.{Setting};

    ghost Value = { Setting };

    ghost coded = { Prim.hlevel (codes, rule.the_row.coded) };

    ghost view = { λ s. record { universe = s.universe.now; rules = s.rules.now } };

    ghost invariant = { λ s. IsWithin s.universe.now × IsSourcesOf (rule_trees s.rules.now) s.sources.now };
}

impl<'a> Setting<'a> {
    /// That of rules, with their index.
    pub fn new(universe: &'a Universe, rules: &'a Seq<Rule>, sources: &'a Sources) -> Setting<'a>
        requires { IsSourcesOf (rule_trees rules.now) sources.now }
        ensures { result ≡ record { universe = universe.now; rules = rules.now } }
    {
        let _labels = universe.labels();
        Setting {
            universe,
            rules,
            sources,
        }
    }

    /// The universe.
    pub fn universe(&self) -> &Universe
        ensures value { result.now ≡ self.now.universe }
        ensures within { IsWithin result.now }
    {
        self.universe
    }

    /// The rules.
    pub fn rules(&self) -> &Seq<Rule>
        ensures { result.now ≡ self.now.rules }
    {
        self.rules
    }

    /// The index of the rules.
    pub fn sources(&self) -> &Sources
        ensures { IsSourcesOf (rule_trees self.now.rules) result.now }
    {
        self.sources
    }

    /// Whether a rule records a name.
    pub fn is_recorded(&self, name: &str) -> bool
        ensures { result ≡ is_recorded (rule_trees self.now.rules) name.now }
    {
        is_recorded(self.sources.recorded(), name)
    }

    /// Whether scraped series may have a name.
    pub fn is_scraped_name(&self, name: &str) -> bool
        ensures { result ≡ is_scraped_name (rule_trees self.now.rules) name.now }
    {
        is_scraped_name(self.sources.recorded(), name)
    }

    /// The name of the series for a selector that says none, by its matchers.
    pub fn name_for(&self, alloc: Global, matchers: &[Matcher]) -> Result<Option<Text>, Memory>
        ensures { IfOk result (λ name. name ≡ name_for self.now.universe (rule_trees self.now.rules) matchers.now) }
    {
        match name_for(alloc, self.universe, self.sources.recorded(), matchers)? {
            Some(class) => Ok(Some(self.name_of(class)?)),
            None => Ok(None),
        }
    }

    /// The name that stands for a class.
    fn name_of(&self, class: u32) -> Result<Text, Memory>
        requires { class < length (named_at self.now.universe 0) + 2 }
        ensures { IfOk result (λ name. name ≡ text_at self.now.universe 0 class) }
    {
        let _labels = self.universe.labels();
        self.universe.candidate(METRIC, class).copy()
    }
}
