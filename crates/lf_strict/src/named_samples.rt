//! Samples by their metric names.
ghost use Rattle.std.specs.Prelude.{◌≡◌, ◌++◌, ◌∷◌, [], IfOk, OnOk, Some};
ghost use Rattle.lf_ast.specs.Labels.{Labels};
ghost use Rattle.lf_ast.specs.Selectors.{metric};
ghost use Rattle.lf_semantics.specs.Passing.{HasName, PassesEach};
ghost use Rattle.lf_semantics.specs.Texts.{value_of};
ghost use Rattle.lf_witness.specs.Strict.{AreSame, AreSelected, IsSet};
ghost use Rattle.lf_witness.specs.StrictRuns.{InOrder};

use crate::lending::Samples;
use crate::sample_set::SampleSet;
use crate::selecting::text_of;
use lf_ast::{LabelSet, Matcher};
use lf_base::{Memory, Text};
use lf_classes::Universe;
use std::alloc::Global;
use std::collections::BTreeMap;
use std::marker::Model;

/// Samples, each once, under the text of the metric name, which is empty where a sample has none.
#[derive(Drop)]
pub struct NamedSamples {
    by_name: BTreeMap<String, SampleSet>,
}

impl Model for NamedSamples {
    ghost use Rattle.std.specs.Prelude.{List};
    ghost use Rattle.std.specs.Coded.{coded_ℕ, coded_list};
    ghost use Rattle.std.specs.FinMap as map;
    ghost use Rattle.lf_ast.specs.Labels.{Labels};
    ghost use Rattle.lf_strict.specs.views.Stored.{AreUnderNames, samples_of};

    ghost Value = { List Labels };

    ghost coded = { coded_list (map.code (coded_list coded_ℕ) (coded_list coded_ℕ)) };

    ghost view = { λ named. samples_of named.by_name.entries };

    ghost invariant = { λ named. AreUnderNames named.by_name.entries };
}

impl NamedSamples {
    /// No sample.
    pub fn new(alloc: Global) -> NamedSamples
        ensures { result ≡ [] }
    {
        NamedSamples {
            by_name: BTreeMap::new(alloc),
        }
    }

    /// Puts a sample among those of its name, unless it is there.
    pub fn put(&mut self, alloc: Global, sample: LabelSet) -> Result<(), Memory>
        ensures { OnOk result (AreSame (self.old ++ sample ∷ []) self.new) }
    {
        let name = String::from_str(alloc, text_of(&sample, "__name__"))?;
        if let Some(samples) = self.by_name.get_mut(name.as_str()) {
            return samples.add(sample);
        }
        let mut samples = SampleSet::new(alloc);
        samples.add(sample)?;
        self.by_name.insert(name, samples)?;
        Ok(())
    }

    /// Appends all samples to others, and may have appended some where it fails.
    pub fn push_to(&self, all: &mut Vec<LabelSet>) -> Result<(), Memory>
        ensures { OnOk result (all.new.items ≡ all.old.items ++ self.now) }
    {
        for samples in self.by_name.values() {
            samples.push_to(all)?;
        }
        Ok(())
    }

    /// The samples that have the name and pass the matchers, where only such of one metric name do.
    pub fn select_named<'a>(
        &self,
        alloc: Global,
        universe: Option<&Universe>,
        sought: &Text,
        name: &Option<Text>,
        matchers: &[Matcher],
    ) -> Result<Samples<'a>, Memory>
        requires { (s : Labels) → HasName name.now s → PassesEach matchers.now s → value_of s metric ≡ sought.now }
        ensures { IfOk result (λ set. InOrder (IsSet (AreSelected self.now name.now matchers.now)) (Some set)) }
    {
        let _count = self.by_name.len();
        match self.by_name.get(sought.as_str()) {
            Some(samples) => samples.select(alloc, universe, name, matchers),
            None => Ok(Samples::new()),
        }
    }
}
