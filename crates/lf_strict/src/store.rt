//! The stored samples.
ghost use Rattle.std.specs.Prelude.{◌≡◌, ◌++◌, ◌∷◌, [], IfOk, IfSome, OnOk, Some};
ghost use Rattle.lf_ast.specs.Labels.{Labels};
ghost use Rattle.lf_ast.specs.Selectors.{metric};
ghost use Rattle.lf_semantics.specs.Passing.{HasName, PassesEach};
ghost use Rattle.lf_semantics.specs.Texts.{value_of};
ghost use Rattle.lf_witness.specs.Ascending.{IsAscending};
ghost use Rattle.lf_witness.specs.Strict.{AreSame, AreSelected, IsSet};
ghost use Rattle.lf_witness.specs.StrictRuns.{InOrder};

use crate::apart::together;
use crate::lending::{Held, Samples};
use crate::named_samples::NamedSamples;
use crate::selecting::{named, passing_each, select, with_named};
use crate::signature::push_each;
use lf_ast::{LabelSet, Matcher, selected_name};
use lf_base::{Memory, Seq, Text};
use lf_classes::Universe;
use std::alloc::Global;
use std::marker::Model;

/// How many of the samples that a store is made of, and how many of those that are put, are gone through one by one, before the others are kept by their names.
const FEW: usize = 8;

/// The stored samples, of which equal ones count once. Most worlds have a few, which are looked through, and no more. Any others are found by their metric names. The first
/// of the samples that a store is made of stay where they are. Where a universe is at hand, it is looked up there whether texts that are its classes pass a pattern.
#[derive(Drop)]
pub struct Store<'a> {
    universe: Option<&'a Universe>,
    given: &'a [LabelSet],
    few: Vec<LabelSet>,
    others: NamedSamples,
}

impl<'a> Model for Store<'a> {
    ghost use Rattle.std.specs.Prelude.{List, ◌++◌};
    ghost use Rattle.std.specs.Coded.{coded_ℕ, coded_list};
    ghost use Rattle.std.specs.FinMap as map;
    ghost use Rattle.lf_ast.specs.Labels.{Labels};

    ghost Value = { List Labels };

    ghost coded = { coded_list (map.code (coded_list coded_ℕ) (coded_list coded_ℕ)) };

    ghost view = { λ store. (store.given.now ++ store.few.items) ++ store.others };
}

impl<'a> Store<'a> {
    /// These samples and no others.
    fn new(alloc: Global, universe: Option<&'a Universe>, given: &'a [LabelSet]) -> Store<'a>
        ensures { result ≡ given.now }
    {
        Store {
            universe,
            given,
            few: Vec::new(alloc),
            others: NamedSamples::new(alloc),
        }
    }

    /// These samples, of which equal ones count once, with a universe, if one is at hand. All but a few are copied.
    pub fn of(
        alloc: Global,
        universe: Option<&'a Universe>,
        samples: &'a Seq<LabelSet>,
    ) -> Result<Store<'a>, Memory>
        ensures { IfOk result (AreSame samples.now) }
    {
        let (given, others) = samples.as_slice().split_at(samples.len().min(FEW));
        let mut store = Store::new(alloc, universe, given);
        store.add(alloc, others)?;
        Ok(store)
    }

    /// Puts samples among the others, of which equal ones count once. It may have put some where it fails.
    pub fn add(&mut self, alloc: Global, samples: &[LabelSet]) -> Result<(), Memory>
        ensures { OnOk result (AreSame (self.old ++ samples.now) self.new) }
    {
        for sample in samples {
            self.put(alloc, sample.copy()?)?;
        }
        Ok(())
    }

    /// Puts samples among the others, of which equal ones count once, without copying them, but for one that is lent. It may have put some where it fails.
    pub fn take(&mut self, alloc: Global, samples: Samples<'_>) -> Result<(), Memory>
        ensures { OnOk result (AreSame (self.old ++ samples.entry) self.new) }
    {
        match samples.held {
            Held::Nothing => Ok(()),
            Held::Lent { sample } => self.put(alloc, sample.copy()?),
            Held::Alone { sample } => self.put(alloc, sample),
            Held::Listed { samples } => self.take_listed(alloc, Seq::from_vec(samples)),
        }
    }

    /// Puts the samples of a list among the others. It may have put some where it fails.
    fn take_listed(&mut self, alloc: Global, mut samples: Seq<LabelSet>) -> Result<(), Memory>
        ensures { OnOk result (AreSame (self.old ++ samples) self.new) }
    {
        while let Some(sample) = samples.pop() {
            self.put(alloc, sample)?;
        }
        Ok(())
    }

    /// Puts a sample among the others. Beside those that are looked through it is put under its name, unless it is there.
    fn put(&mut self, alloc: Global, sample: LabelSet) -> Result<(), Memory>
        ensures { OnOk result (AreSame (self.old ++ sample ∷ []) self.new) }
    {
        if self.few.len() < FEW {
            self.few.push(sample)?;
            return Ok(());
        }
        self.others.put(alloc, sample)
    }

    /// All samples, in ascending order.
    pub fn in_order<'b>(&self, alloc: Global) -> Result<Samples<'b>, Memory>
        ensures same { IfOk result (AreSame self.now) }
        ensures ascends { IfOk result IsAscending }
    {
        let mut all = Vec::new(alloc);
        push_each(&mut all, self.given)?;
        push_each(&mut all, self.few.as_slice())?;
        self.others.push_to(&mut all)?;
        Ok(together(all))
    }

    /// The samples that have the name and pass the matchers, in ascending order. Where the metric name is given, of those that are kept by their names only the samples of that name are looked at.
    pub fn select(
        &self,
        alloc: Global,
        name: &Option<Text>,
        matchers: &[Matcher],
    ) -> Result<Samples<'_>, Memory>
        ensures { IfOk result (λ set. InOrder (IsSet (AreSelected self.now name.now matchers.now)) (Some set)) }
    {
        match sought_name(name, matchers) {
            Some(sought) => self.select_named(alloc, sought, name, matchers),
            None => {
                let all = self.in_order(alloc)?;
                select(alloc, self.universe, all, name, matchers)
            }
        }
    }

    /// The samples that have the name and pass the matchers, where only such of one metric name do.
    fn select_named(
        &self,
        alloc: Global,
        sought: &Text,
        name: &Option<Text>,
        matchers: &[Matcher],
    ) -> Result<Samples<'_>, Memory>
        requires { (s : Labels) → HasName name.now s → PassesEach matchers.now s → value_of s metric ≡ sought.now }
        ensures { IfOk result (λ set. InOrder (IsSet (AreSelected self.now name.now matchers.now)) (Some set)) }
    {
        let first = named(alloc, self.given, name)?;
        let kept = with_named(alloc, first, self.few.as_slice(), name)?;
        let found = passing_each(alloc, self.universe, kept, matchers)?;
        let others = self
            .others
            .select_named(alloc, self.universe, sought, name, matchers)?;
        joined(alloc, found, others)
    }
}

/// Samples and others, in ascending order, of which equal ones count once. One that is alone stays where it is.
fn joined<'a>(
    alloc: Global,
    samples: Samples<'a>,
    others: Samples<'_>,
) -> Result<Samples<'a>, Memory>
    ensures same { IfOk result (AreSame (samples.entry ++ others.entry)) }
    ensures ascends { IfOk result IsAscending }
{
    if samples.len() < 2 && others.len() == 0 {
        return Ok(samples);
    }
    let mut all = samples.into_vec(alloc)?;
    let more = others.into_list(alloc)?;
    take_each(&mut all, more)?;
    Ok(together(all))
}

/// Puts samples behind others, the last one first, without copying them. It may have put some where it fails.
fn take_each(all: &mut Vec<LabelSet>, mut samples: Seq<LabelSet>) -> Result<(), Memory>
    ensures { OnOk result (AreSame (all.old.items ++ samples) all.new.items) }
{
    while let Some(sample) = samples.pop() {
        all.push(sample)?;
    }
    Ok(())
}

/// The metric name of all samples that have the name and pass the matchers, where the name or a matcher says it.
fn sought_name<'a>(name: &'a Option<Text>, matchers: &'a [Matcher]) -> Option<&'a Text>
    ensures { IfSome result (λ sought. (s : Labels) → HasName name.entry.now s → PassesEach matchers.entry.now s → value_of s metric ≡ sought.now) }
{
    selected_name(name, matchers)
}
