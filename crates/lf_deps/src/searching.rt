//! The names that selectors read, by a search over the index.
ghost use Rattle.std.specs.Prelude.{◌≡◌, ◌<◌, ◌∷◌, [], ℕ, List, Option, false, length, slice_index_or, IfOk, OnOk};
ghost use Rattle.std.specs.List.{Contains};
ghost use Rattle.lf_ast.specs.Labels.{Bytes};
ghost use Rattle.lf_ast.specs.Rules.{RuleTree};
ghost use Rattle.lf_deps.specs.views.Index.{IsIndex, chosen_by, makers_of};
ghost use Rattle.lf_deps.specs.views.Search.{AreRead, Grows, HasAll, IsSearch, chosen, chosen_all};
ghost use Rattle.lf_deps.specs.views.Sources.{IsSourcesOf};

use crate::sources::Sources;
use lf_base::{Memory, Text};
use lf_classes::TextSet;
use std::alloc::Global;

/// The names that a search has met, each once, and whether all recorded names were added.
#[derive(Drop)]
struct FoundNames {
    texts: TextSet,
    all: bool,
}

/// The names that selectors read: those that they select, and those that are read in the making of a recorded name that they read.
pub(crate) fn names_read(
    alloc: Global,
    sources: &Sources,
    start: &[Option<Text>],
) -> Result<TextSet, Memory>
    requires { IsIndex sources.now }
    ensures { IfOk result (λ names. (rules : List RuleTree) → IsSourcesOf rules sources.now → AreRead rules start.now names) }
{
    let mut names = FoundNames::new(alloc);
    names.add_all(alloc, sources, start)?;
    names.follow_all(alloc, sources)?;
    Ok(names.texts)
}

impl FoundNames {
    /// No name.
    fn new(alloc: Global) -> FoundNames
        ensures texts { result.texts ≡ [] }
        ensures all { result.all ≡ false }
    {
        FoundNames {
            texts: TextSet::new(alloc),
            all: false,
        }
    }

    /// Follows each name once, in the order in which the names were met.
    fn follow_all(&mut self, alloc: Global, sources: &Sources) -> Result<(), Memory>
        requires index { IsIndex sources.now }
        requires all { HasAll sources.now.names self.old.all self.old.texts }
        ensures { OnOk result ((rules : List RuleTree) (start : List (Option Bytes)) → IsSourcesOf rules sources.now → IsSearch rules start self.old.texts 0 → AreRead rules start self.new.texts) }
    {
        let mut next = 0;
        while next < self.texts.len() {
            self.follow(alloc, sources, next)?;
            next += 1;
        }
        Ok(())
    }

    /// Adds what the rules of the name at a place select.
    fn follow(&mut self, alloc: Global, sources: &Sources, place: usize) -> Result<(), Memory>
        requires index { IsIndex sources.now }
        requires all { HasAll sources.now.names self.old.all self.old.texts }
        requires place { place < length self.old.texts }
        ensures grows { OnOk result (Grows (chosen_by sources.now (makers_of sources.now (slice_index_or self.old.texts place []))) self.old.texts self.new.texts) }
        ensures all { OnOk result (HasAll sources.now.names self.new.all self.new.texts) }
    {
        let makers = sources.makers_of(self.texts.get(place).as_str());
        self.add_made(alloc, sources, makers)
    }

    /// Adds what the rules of these numbers select.
    fn add_made(&mut self, alloc: Global, sources: &Sources, makers: &[usize]) -> Result<(), Memory>
        requires makers { (k : ℕ) → Contains makers.now k → k < length sources.now.selected }
        requires all { HasAll sources.now.names self.old.all self.old.texts }
        ensures grows { OnOk result (Grows (chosen_by sources.now makers.now) self.old.texts self.new.texts) }
        ensures all { OnOk result (HasAll sources.now.names self.new.all self.new.texts) }
    {
        for k in 0..makers.len() {
            self.add_all(alloc, sources, sources.selected_by(makers[k]))?;
        }
        Ok(())
    }

    /// Adds what selectors select.
    fn add_all(
        &mut self,
        alloc: Global,
        sources: &Sources,
        found: &[Option<Text>],
    ) -> Result<(), Memory>
        requires all { HasAll sources.now.names self.old.all self.old.texts }
        ensures grows { OnOk result (Grows (chosen_all sources.now.names found.now) self.old.texts self.new.texts) }
        ensures all { OnOk result (HasAll sources.now.names self.new.all self.new.texts) }
    {
        for k in 0..found.len() {
            self.add(alloc, sources, &found[k])?;
        }
        Ok(())
    }

    /// Adds what a selector selects.
    fn add(
        &mut self,
        alloc: Global,
        sources: &Sources,
        selector: &Option<Text>,
    ) -> Result<(), Memory>
        requires all { HasAll sources.now.names self.old.all self.old.texts }
        ensures grows { OnOk result (Grows (chosen sources.now.names selector.now) self.old.texts self.new.texts) }
        ensures all { OnOk result (HasAll sources.now.names self.new.all self.new.texts) }
    {
        match selector {
            Some(name) => add_text(alloc, &mut self.texts, name),
            None => self.add_recorded(alloc, sources.recorded()),
        }
    }

    /// Adds all recorded names, unless they were added.
    fn add_recorded(&mut self, alloc: Global, recorded: &TextSet) -> Result<(), Memory>
        requires all { HasAll recorded.now self.old.all self.old.texts }
        ensures grows { OnOk result (Grows recorded.now self.old.texts self.new.texts) }
        ensures all { OnOk result (HasAll recorded.now self.new.all self.new.texts) }
    {
        if self.all {
            return Ok(());
        }
        add_texts(alloc, &mut self.texts, recorded)?;
        self.all = true;
        Ok(())
    }
}

/// Adds names.
fn add_texts(alloc: Global, texts: &mut TextSet, names: &TextSet) -> Result<(), Memory>
    ensures { OnOk result (Grows names.now texts.old texts.new) }
{
    for k in 0..names.len() {
        add_text(alloc, texts, names.get(k))?;
    }
    Ok(())
}

/// Adds a name.
fn add_text(alloc: Global, texts: &mut TextSet, name: &Text) -> Result<(), Memory>
    ensures { OnOk result (Grows (name.now ∷ []) texts.old texts.new) }
{
    let _ = texts.add(alloc, name.as_str())?;
    Ok(())
}
