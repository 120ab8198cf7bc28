//! Sets of samples.
ghost use Rattle.std.specs.Prelude.{◌≡◌, ◌++◌, ◌∷◌, [], IfOk, OnErr, OnOk, Some};
ghost use Rattle.std.specs.List.{filter};
ghost use Rattle.lf_witness.specs.Ascending.{IsAscending};
ghost use Rattle.lf_witness.specs.Strict.{AreSame, AreSelected, IsSet};
ghost use Rattle.lf_witness.specs.StrictRuns.{InOrder};
ghost use Rattle.lf_strict.specs.views.Selected.{has_name};

use crate::lending::Samples;
use crate::selecting::{has_name, passing_each};
use lf_ast::{LabelSet, Matcher};
use lf_base::{Memory, Text};
use lf_classes::Universe;
use std::alloc::Global;
use std::collections::BTreeSet;
use std::marker::Model;

/// Samples in ascending order, each once.
#[derive(Drop)]
pub struct SampleSet {
    samples: BTreeSet<LabelSet>,
}

impl Model for SampleSet {
    ghost use Rattle.std.specs.Prelude.{List};
    ghost use Rattle.std.specs.Coded.{coded_ℕ, coded_list};
    ghost use Rattle.std.specs.FinMap as map;
    ghost use Rattle.lf_ast.specs.Labels.{Labels};

    ghost Value = { List Labels };

    ghost coded = { coded_list (map.code (coded_list coded_ℕ) (coded_list coded_ℕ)) };

    ghost view = { λ s. s.samples.keys };
}

impl SampleSet {
    /// No sample.
    pub fn new(alloc: Global) -> SampleSet
        ensures { result ≡ [] }
    {
        SampleSet {
            samples: BTreeSet::new(alloc),
        }
    }

    /// Puts a sample among the others, unless it is there.
    pub fn add(&mut self, sample: LabelSet) -> Result<(), Memory>
        ensures ok { OnOk result (AreSame (self.old ++ sample ∷ []) self.new) }
        ensures err { OnErr result (self.new ≡ self.old) }
    {
        let _ = self.samples.insert(sample)?;
        Ok(())
    }

    /// Appends the samples to others, and may have appended some where it fails.
    pub fn push_to(&self, all: &mut Vec<LabelSet>) -> Result<(), Memory>
        ensures { OnOk result (all.new.items ≡ all.old.items ++ self.now) }
    {
        for sample in self.samples.iter() {
            all.push(sample.copy()?)?;
        }
        Ok(())
    }

    /// The samples that have the name and pass the matchers, in ascending order.
    pub fn select<'a>(
        &self,
        alloc: Global,
        universe: Option<&Universe>,
        name: &Option<Text>,
        matchers: &[Matcher],
    ) -> Result<Samples<'a>, Memory>
        ensures { IfOk result (λ set. InOrder (IsSet (AreSelected self.now name.now matchers.now)) (Some set)) }
    {
        let kept = self.named(alloc, name)?;
        passing_each(alloc, universe, Samples::from_vec(kept), matchers)
    }

    /// The samples of this name, or all of them.
    fn named(&self, alloc: Global, name: &Option<Text>) -> Result<Vec<LabelSet>, Memory>
        ensures kept { IfOk result (λ kept. kept.items ≡ filter (has_name name.now) self.now) }
        ensures ascends { IfOk result (λ kept. IsAscending self.now) }
    {
        let mut kept = Vec::new(alloc);
        for sample in self.samples.iter() {
            if has_name(name, sample) {
                kept.push(sample.copy()?)?;
            }
        }
        Ok(kept)
    }
}
