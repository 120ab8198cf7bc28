//! Where names are selected.
ghost use Rattle.std.specs.Prelude.{◌≡◌, ◌+◌, true, length, not, Some, IfOk, OnOk};
ghost use Rattle.std.specs.List.{flat_map};
ghost use Rattle.lf_ast.specs.Rules.{rule_trees};
ghost use Rattle.lf_deps.specs.views.Links.{source_of};
ghost use Rattle.lf_deps.specs.views.Sources.{IsSourcesOf};
ghost use Rattle.lf_semantics.specs.Listing.{place};
ghost use Rattle.lf_forks.specs.views.Uses.{AreUses, Puts};

use lf_ast::Rule;
use lf_base::{Memory, Seq, Text};
use lf_classes::TextSet;
use lf_deps::Sources;
use lf_graph::Buckets;
use std::alloc::Global;

/// For each recorded name, by its place, and behind these for selectors that say no name, the names whose rules select it. One pass over the rules.
pub(crate) fn uses_of(
    alloc: Global,
    rules: &Seq<Rule>,
    sources: &Sources,
    names: &TextSet,
) -> Result<Seq<Seq<usize>>, Memory>
    requires sources { IsSourcesOf (rule_trees rules.now) sources.now }
    ensures { IfOk result (AreUses (rule_trees rules.now) names.now) }
{
    let mut uses = Buckets::empty(alloc, names.len() + 1)?;
    for k in 0..rules.len() {
        put_rule(names, rules.get(k), sources.selected_by(k), &mut uses)?;
    }
    Ok(uses.into_lists())
}

/// Puts the name of a rule into the lists of what it selects. An alert records none.
fn put_rule(
    names: &TextSet,
    rule: &Rule,
    selected: &[Option<Text>],
    uses: &mut Buckets,
) -> Result<(), Memory>
    requires { length uses.old ≡ length names.now + 1 }
    ensures { OnOk result (Puts (not rule.now.alert) (flat_map (source_of names.now) selected.now) (place names.now rule.now.name) uses.old uses.new) }
{
    if rule.alert {
        return Ok(());
    }
    put_all(names, selected, names.place(rule.name.as_str()), uses)
}

/// Puts a name, by its place, into the lists of what selectors select.
fn put_all(
    names: &TextSet,
    selected: &[Option<Text>],
    place: usize,
    uses: &mut Buckets,
) -> Result<(), Memory>
    requires { length uses.old ≡ length names.now + 1 }
    ensures { OnOk result (Puts true (flat_map (source_of names.now) selected.now) place uses.old uses.new) }
{
    for selector in selected {
        put(names, selector, place, uses)?;
    }
    Ok(())
}

/// Puts a name, by its place, into the list of what a selector selects, if there is one.
fn put(
    names: &TextSet,
    selector: &Option<Text>,
    place: usize,
    uses: &mut Buckets,
) -> Result<(), Memory>
    requires { length uses.old ≡ length names.now + 1 }
    ensures { OnOk result (Puts true (source_of names.now selector.now) place uses.old uses.new) }
{
    match selector {
        Some(name) => put_named(names, name, place, uses),
        None => uses.push(names.len(), place),
    }
}

/// Puts a name, by its place, into the list of another, if that is recorded.
fn put_named(names: &TextSet, name: &Text, place: usize, uses: &mut Buckets) -> Result<(), Memory>
    requires { length uses.old ≡ length names.now + 1 }
    ensures { OnOk result (Puts true (source_of names.now (Some name.now)) place uses.old uses.new) }
{
    let node = names.place(name.as_str());
    if node < names.len() {
        uses.push(node, place)
    } else {
        Ok(())
    }
}
