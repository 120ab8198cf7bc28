//! The names of series for selectors that say none, sought once for all worlds.
ghost use Rattle.std.specs.Prelude.{◌≡◌, List, None, IfOk, is_none, slice_index_or};
ghost use Rattle.std.specs.List.{AllZip, list_any};
ghost use Rattle.lf_ast.specs.Rules.{RuleTree};
ghost use Rattle.lf_ast.specs.Tree.{nodes, tree};
ghost use Rattle.lf_classes.specs.Limits.{IsWithin};
ghost use Rattle.lf_semantics.specs.Environments.{recorded_names};
ghost use Rattle.lf_built.specs.views.Unsaid.{AreSought, IsSought};

use crate::visiting::selector_of;
use lf_ast::walk::nodes_of;
use lf_ast::{Expr, selected_name};
use lf_base::{Memory, Text};
use lf_candidates::name_for;
use lf_classes::{TextSet, Universe};
use std::alloc::Global;
use std::marker::Model;

/// What was found where the name of the series for a selector was sought: its class, or that there is no such name.
#[derive(Clone, Copy, Drop)]
pub struct SoughtName {
    pub class: Option<u32>,
}

/// For an expression and each part in it, in the order of the text, each before its own parts, what was found for a selector that says no name. For other parts nothing was
/// sought. Where an expression selects nothing without a name, no part is told of.
#[derive(Drop)]
pub struct SoughtNames {
    found: Vec<Option<SoughtName>>,
}

impl Model for SoughtNames {
    ghost use Rattle.std.specs.Prelude.{List, Option};
    ghost use Rattle.lf_built.specs.declared.unsaid.SoughtName.{SoughtName};

    ghost Value = { List (Option SoughtName) };

    ghost view = { λ names. names.found.items };
}

impl SoughtNames {
    /// Those of an expression, by what it selects. A name goes by the matchers of its selector, the universe and the recorded names alone, so that no world seeks it anew.
    pub fn of(
        alloc: Global,
        universe: &Universe,
        recorded: &TextSet,
        selected: &[Option<Text>],
        expr: &Expr,
    ) -> Result<SoughtNames, Memory>
        requires universe { IsWithin universe.now }
        ensures { (rules : List RuleTree) → recorded.now ≡ recorded_names rules → IfOk result (AreSought universe.now rules (nodes (tree expr.now))) }
    {
        if selects_unnamed(selected) {
            let found = sought_in(alloc, universe, recorded, expr)?;
            Ok(SoughtNames { found })
        } else {
            let found = Vec::new(alloc);
            Ok(SoughtNames { found })
        }
    }

    /// What was found for the part at a place, if anything was sought.
    pub fn at(&self, place: usize) -> Option<SoughtName>
        ensures { result ≡ slice_index_or self.now place None }
    {
        if place < self.found.len() {
            self.found[place]
        } else {
            None
        }
    }
}

/// Whether one of these selectors says no name.
fn selects_unnamed(selected: &[Option<Text>]) -> bool
    ensures { result ≡ list_any is_none selected.now }
{
    selected.iter().any(|name| name.is_none())
}

/// What is found for an expression and for each part in it.
fn sought_in(
    alloc: Global,
    universe: &Universe,
    recorded: &TextSet,
    expr: &Expr,
) -> Result<Vec<Option<SoughtName>>, Memory>
    requires universe { IsWithin universe.now }
    ensures { (rules : List RuleTree) → recorded.now ≡ recorded_names rules → IfOk result (λ found. AllZip (IsSought universe.now rules) (nodes (tree expr.now)) found.items) }
{
    let nodes = nodes_of(alloc, expr)?;
    let mut found = Vec::with_capacity(alloc, nodes.len())?;
    for k in 0..nodes.len() {
        let node = nodes[k];
        let sought = sought_for(alloc, universe, recorded, node)?;
        found.push(sought)?;
    }
    Ok(found)
}

/// What is found for an expression, if it is a selector that says no name.
fn sought_for(
    alloc: Global,
    universe: &Universe,
    recorded: &TextSet,
    expr: &Expr,
) -> Result<Option<SoughtName>, Memory>
    requires universe { IsWithin universe.now }
    ensures { (rules : List RuleTree) → recorded.now ≡ recorded_names rules → IfOk result (IsSought universe.now rules (tree expr.now)) }
{
    match selector_of(expr) {
        Some((name, matchers)) => {
            if selected_name(name, matchers).is_some() {
                return Ok(None);
            }
            let class = name_for(alloc, universe, recorded, matchers)?;
            Ok(Some(SoughtName { class }))
        }
        None => Ok(None),
    }
}
