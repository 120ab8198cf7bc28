//! What rules wait for, by numbers.
ghost use Rattle.std.specs.Prelude.{◌≡◌, ◌++◌, map, IfOk, OnOk};
ghost use Rattle.std.specs.List.{flat_map};
ghost use Rattle.lf_ast.specs.Rules.{rule_tree, rule_trees};
ghost use Rattle.lf_deps.specs.views.Links.{IsLinksOf, recorded_at, source_of};
ghost use Rattle.lf_deps.specs.views.Sources.{IsSourcesOf};

use crate::sources::Sources;
use lf_ast::Rule;
use lf_base::{Memory, Seq, Text};
use lf_classes::TextSet;
use std::alloc::Global;

/// What rules wait for. A recorded name is a source, by its place among the recorded names, and all recorded names together are the source behind these.
#[derive(Drop)]
pub(crate) struct Links {
    /// How many sources there are.
    pub(crate) sources: usize,
    /// The sources that each rule waits for: those of the names that it selects, and that of all names where it has a selector without a name.
    pub(crate) waited: Seq<Seq<usize>>,
    /// The sources that each rule records: those of its name and of all names, or none for an alerting rule.
    pub(crate) recorded: Seq<Seq<usize>>,
}

impl Links {
    /// Those of rules, by the index of the same rules. One pass over the rules.
    pub(crate) fn of(alloc: Global, index: &Sources, rules: &Seq<Rule>) -> Result<Links, Memory>
        requires { IsSourcesOf (rule_trees rules.now) index.now }
        ensures { IfOk result (IsLinksOf (rule_trees rules.now)) }
    {
        let waited = waited_by_each(alloc, &index.names, index.selected.as_slice())?;
        let recorded = recorded_by_each(alloc, &index.names, rules)?;
        Ok(Links {
            sources: index.names.len() + 1,
            waited,
            recorded,
        })
    }
}

/// The sources that each rule waits for, by its selectors.
fn waited_by_each(
    alloc: Global,
    names: &TextSet,
    selected: &[Seq<Option<Text>>],
) -> Result<Seq<Seq<usize>>, Memory>
    ensures { IfOk result (λ all. all ≡ map (λ found. flat_map (source_of names.now) found) selected.now) }
{
    let mut all = Seq::with_capacity(alloc, selected.len())?;
    for found in selected {
        all.push(sources_of(alloc, names, found.as_slice())?)?;
    }
    Ok(all)
}

/// The sources that selectors wait for.
pub(crate) fn sources_of(
    alloc: Global,
    names: &TextSet,
    found: &[Option<Text>],
) -> Result<Seq<usize>, Memory>
    ensures { IfOk result (λ sources. sources ≡ flat_map (source_of names.now) found.now) }
{
    let mut sources = Seq::new(alloc);
    push_sources(names, found, &mut sources)?;
    Ok(sources)
}

/// Puts the sources that selectors wait for behind others.
pub(crate) fn push_sources(
    names: &TextSet,
    found: &[Option<Text>],
    sources: &mut Seq<usize>,
) -> Result<(), Memory>
    ensures { OnOk result (sources.new ≡ sources.old ++ flat_map (source_of names.now) found.now) }
{
    for selector in found {
        push_source(names, selector, sources)?;
    }
    Ok(())
}

/// Puts the source that a selector waits for behind others, if there is one.
pub(crate) fn push_source(
    names: &TextSet,
    selector: &Option<Text>,
    sources: &mut Seq<usize>,
) -> Result<(), Memory>
    ensures { OnOk result (sources.new ≡ sources.old ++ source_of names.now selector.now) }
{
    match selector {
        Some(name) => {
            let place = names.place(name.as_str());
            if place < names.len() {
                sources.push(place)
            } else {
                Ok(())
            }
        }
        None => sources.push(names.len()),
    }
}

/// The sources that each rule records.
fn recorded_by_each(
    alloc: Global,
    names: &TextSet,
    rules: &Seq<Rule>,
) -> Result<Seq<Seq<usize>>, Memory>
    ensures { IfOk result (λ all. all ≡ map (λ r. recorded_at names.now (rule_tree r)) rules.now) }
{
    let mut all = Seq::with_capacity(alloc, rules.len())?;
    for k in 0..rules.len() {
        all.push(recorded_by(alloc, names, rules.get(k))?)?;
    }
    Ok(all)
}

/// The sources that a rule records.
fn recorded_by(alloc: Global, names: &TextSet, rule: &Rule) -> Result<Seq<usize>, Memory>
    ensures { IfOk result (λ sources. sources ≡ recorded_at names.now (rule_tree rule.now)) }
{
    let mut sources = Seq::new(alloc);
    if !rule.alert {
        sources.push(names.place(rule.name.as_str()))?;
        sources.push(names.len())?;
    }
    Ok(sources)
}
