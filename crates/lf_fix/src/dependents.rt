//! Which rules select the rows of which names.
ghost use Rattle.std.specs.Prelude.{◌≡◌, ◌⊎◌, ℕ, true, List, Option, None, Some, slice_index_or, IfOk, OnOk};
ghost use Rattle.std.specs.List.{AllByRecursion, Contains};
ghost use Rattle.lf_ast.specs.Labels.{Bytes};
ghost use Rattle.lf_ast.specs.Rules.{RuleTree};
ghost use Rattle.lf_deps.specs.views.Sources.{IsSourcesOf};
ghost use Rattle.lf_fix.specs.views.Dependents.{IsFull, IsIndexOf, IsListed};

use lf_base::{Memory, Seq, Text};
use lf_classes::TextSet;
use lf_deps::Sources;
use lf_graph::Buckets;
use std::alloc::Global;
use std::marker::Model;

/// The numbers of the rules that select the row of each name, and of those that select all rows, by a selector that says no name.
#[derive(Drop)]
pub(crate) struct Dependents {
    names: TextSet,
    of_name: Buckets,
    of_all: Seq<usize>,
}

impl Model for Dependents {
    ghost use Rattle.lf_fix.specs.views.Dependents.{Index};

    ghost Value = { Index };

    ghost view = { λ r. record { names = r.names; of_name = r.of_name; of_all = r.of_all } };
}

impl Dependents {
    /// Those of the rules of an index.
    pub(crate) fn of(alloc: Global, sources: &Sources) -> Result<Dependents, Memory>
        ensures { IfOk result (λ dependents. (rules : List RuleTree) → IsSourcesOf rules sources.now → IsIndexOf rules dependents) }
    {
        let mut dependents = Dependents {
            names: TextSet::new(alloc),
            of_name: Buckets::new(alloc),
            of_all: Seq::new(alloc),
        };
        for k in 0..sources.rule_count() {
            dependents.list_all(alloc, k, sources.selected_by(k))?;
        }
        Ok(dependents)
    }

    /// Lists a rule with all its selectors.
    fn list_all(&mut self, alloc: Global, rule: usize, found: &[Option<Text>]) -> Result<(), Memory>
        requires full { IsFull self.old }
        ensures listed { OnOk result (AllByRecursion (IsListed self.new rule) found.now) }
        ensures only { OnOk result ((k : ℕ) (o : Option Bytes) → IsListed self.new k o → IsListed self.old k o ⊎ ((k ≡ rule) × Contains found.now o)) }
        ensures kept { OnOk result ((k : ℕ) (o : Option Bytes) → IsListed self.old k o → IsListed self.new k o) }
        ensures full { OnOk result (IsFull self.new) }
    {
        for k in 0..found.len() {
            self.list(alloc, rule, &found[k])?;
        }
        Ok(())
    }

    /// Lists a rule with what a selector selects.
    fn list(&mut self, alloc: Global, rule: usize, selector: &Option<Text>) -> Result<(), Memory>
        requires full { IsFull self.old }
        ensures listed { OnOk result (IsListed self.new rule selector.now) }
        ensures only { OnOk result ((k : ℕ) (o : Option Bytes) → IsListed self.new k o → IsListed self.old k o ⊎ ((k ≡ rule) × (o ≡ selector.now))) }
        ensures kept { OnOk result ((k : ℕ) (o : Option Bytes) → IsListed self.old k o → IsListed self.new k o) }
        ensures full { OnOk result (IsFull self.new) }
    {
        match selector {
            Some(name) => self.add(alloc, name.as_str(), rule),
            None => self.of_all.push(rule),
        }
    }

    /// Lists a rule with a name.
    fn add(&mut self, alloc: Global, name: &str, rule: usize) -> Result<(), Memory>
        requires full { IsFull self.old }
        ensures listed { OnOk result (IsListed self.new rule (Some name.now)) }
        ensures only { OnOk result ((k : ℕ) (o : Option Bytes) → IsListed self.new k o → IsListed self.old k o ⊎ ((k ≡ rule) × (o ≡ Some name.now))) }
        ensures kept { OnOk result ((k : ℕ) (o : Option Bytes) → IsListed self.old k o → IsListed self.new k o) }
        ensures full { OnOk result (IsFull self.new) }
    {
        let place = self.names.add(alloc, name)?;
        self.of_name.make_room(alloc, place)?;
        self.of_name.push(place, rule)?;
        Ok(())
    }

    /// Marks as dirty each rule that selects a name, alone or among all, and no other.
    pub(crate) fn invalidate(&self, name: &str, dirty: &mut [bool])
        ensures kept { (k : ℕ) → slice_index_or dirty.old k true ≡ true → slice_index_or dirty.new k true ≡ true }
        ensures named { (k : ℕ) → IsListed self.now k (Some name.now) → slice_index_or dirty.new k true ≡ true }
        ensures all { (k : ℕ) → IsListed self.now k None → slice_index_or dirty.new k true ≡ true }
        ensures only { (k : ℕ) → slice_index_or dirty.new k true ≡ true → (slice_index_or dirty.old k true ≡ true) ⊎ (IsListed self.now k (Some name.now) ⊎ IsListed self.now k None) }
    {
        mark_all(self.of_all.as_slice(), dirty);
        let place = self.names.place(name);
        mark_all(self.of_name.at(place), dirty);
    }
}

/// Marks the places of these numbers.
fn mark_all(numbers: &[usize], marks: &mut [bool])
    ensures kept { (k : ℕ) → slice_index_or marks.old k true ≡ true → slice_index_or marks.new k true ≡ true }
    ensures marked { (k : ℕ) → Contains numbers.now k → slice_index_or marks.new k true ≡ true }
    ensures only { (k : ℕ) → slice_index_or marks.new k true ≡ true → (slice_index_or marks.old k true ≡ true) ⊎ Contains numbers.now k }
{
    for number in numbers {
        mark_one(*number, marks);
    }
}

/// Marks a place, if it is one.
fn mark_one(number: usize, marks: &mut [bool])
    ensures kept { (k : ℕ) → slice_index_or marks.old k true ≡ true → slice_index_or marks.new k true ≡ true }
    ensures marked { slice_index_or marks.new number true ≡ true }
    ensures only { (k : ℕ) → slice_index_or marks.new k true ≡ true → (slice_index_or marks.old k true ≡ true) ⊎ (k ≡ number) }
{
    if number < marks.len() {
        marks[number] = true;
    }
}
