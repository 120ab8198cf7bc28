//! Which names are read by a selector.
ghost use Rattle.std.specs.Prelude.{◌≡◌, List, IfOk, OnOk};
ghost use Rattle.lf_ast.specs.Rules.{RuleTree, rule_trees};
ghost use Rattle.lf_deps.specs.views.Names.{AreNumbersBy, BeginWith};
ghost use Rattle.lf_deps.specs.views.Search.{Grows};
ghost use Rattle.lf_deps.specs.views.Sources.{IsSourcesOf};
ghost use Rattle.lf_open.specs.views.ReadNames.{HaveNames, IsReadGraph, said_name, said_names};

use lf_ast::Rule;
use lf_base::{Memory, Seq, Text};
use lf_classes::{TextSet, recorded_names};
use lf_deps::{NameGraph, Sources};
use std::alloc::Global;
use std::marker::Model;

/// The names that rules record or select, with their graph, and the numbers of those that a selector reads which says no name. The number of a name is its place.
#[derive(Drop)]
pub(crate) struct ReadGraph {
    names: TextSet,
    graph: NameGraph,
    all: Seq<usize>,
}

impl Model for ReadGraph {
    ghost use Rattle.lf_open.specs.views.ReadNames.{ReadGraph};

    ghost Value = { ReadGraph };

    ghost view = { λ g. record { names = g.names; graph = g.graph; all = g.all } };
}

impl ReadGraph {
    /// That of rules, by their index. It takes about as long as their selectors are many.
    pub(crate) fn of(
        alloc: Global,
        rules: &Seq<Rule>,
        sources: &Sources,
    ) -> Result<ReadGraph, Memory>
        requires { IsSourcesOf (rule_trees rules.now) sources.now }
        ensures { IfOk result (IsReadGraph (rule_trees rules.now)) }
    {
        let names = names_of(alloc, rules, sources)?;
        let graph = NameGraph::with_names(alloc, sources, &names)?;
        let all = graph.read_by(alloc, &names, &None)?;
        Ok(ReadGraph { names, graph, all })
    }

    /// The numbers of the names that a selector reads: the name that it says, and those that are read in its making.
    pub(crate) fn numbers_by(
        &self,
        alloc: Global,
        selector: &Option<Text>,
    ) -> Result<Seq<usize>, Memory>
        requires { (rules : List RuleTree) × IsReadGraph rules self.now }
        ensures { (rules : List RuleTree) → IsReadGraph rules self.now → IfOk result (AreNumbersBy rules self.now.names selector.now) }
    {
        self.graph.read_by(alloc, &self.names, selector)
    }

    /// The numbers of the names that a selector reads which says no name.
    pub(crate) fn all_numbers(&self) -> &[usize]
        ensures { result.now ≡ self.now.all }
    {
        self.all.as_slice()
    }
}

/// The names that rules record or select.
fn names_of(alloc: Global, rules: &Seq<Rule>, sources: &Sources) -> Result<TextSet, Memory>
    requires { IsSourcesOf (rule_trees rules.now) sources.now }
    ensures have { IfOk result (HaveNames (rule_trees rules.now)) }
    ensures begin { IfOk result (λ names. BeginWith names sources.now.names) }
{
    let mut names = recorded_names(alloc, rules.as_slice())?;
    for k in 0..sources.rule_count() {
        add_selected(alloc, sources.selected_by(k), &mut names)?;
    }
    Ok(names)
}

/// Puts the names that selectors say behind others, each unless it is there.
fn add_selected(alloc: Global, selected: &[Option<Text>], names: &mut TextSet) -> Result<(), Memory>
    ensures { OnOk result (Grows (said_names selected.now) names.old names.new) }
{
    for selector in selected {
        add_name(alloc, selector, names)?;
    }
    Ok(())
}

/// Puts the name that a selector says behind others, unless it is there.
fn add_name(alloc: Global, selector: &Option<Text>, names: &mut TextSet) -> Result<(), Memory>
    ensures { OnOk result (Grows (said_name selector.now) names.old names.new) }
{
    match selector {
        Some(name) => {
            let _place = names.add(alloc, name.as_str())?;
            Ok(())
        }
        None => Ok(()),
    }
}
