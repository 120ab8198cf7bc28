//! Which selectors are forks, or are made by one.
ghost use Rattle.std.specs.Prelude.{◌≡◌, map, IfOk};
ghost use Rattle.lf_ast.specs.Rules.{rule_trees};
ghost use Rattle.lf_ast.specs.Tree.{tree, nodes};
ghost use Rattle.lf_deps.specs.views.Sources.{IsSourcesOf};
ghost use Rattle.lf_trials.specs.Forks.{has_passing};
ghost use Rattle.lf_forks.specs.views.ForkTests.{TellsSelectors};
ghost use Rattle.lf_forks.specs.views.Holding.{holds, test_of};

use crate::holding::{Held, hold_each, holds};
use crate::name_marks::NameMarks;
use crate::own::own_forks;
use crate::uses::uses_of;
use lf_ast::{Expr, Rule};
use lf_base::{Memory, Seq};
use lf_deps::Sources;
use lf_graph::Components;
use std::alloc::Global;
use std::marker::Model;

/// Which selectors are forks, or are made by one.
#[derive(Drop)]
pub struct Forks {
    marks: NameMarks,
}

impl Model for Forks {
    ghost use Rattle.lf_forks.specs.views.Holding.{Forks};

    ghost Value = { Forks };

    ghost view = { λ s. record { marks = s.marks } };
}

impl Forks {
    /// Those of rules, by the index of these. A name is a fork if several rules record it. It is made by one if a rule of the name has a fork in its expression, or reads a
    /// name of such a rule. A selector that says no name reads each of these.
    ///
    /// It takes about as long as the rules' expressions are long.
    pub fn of(alloc: Global, rules: &Seq<Rule>, sources: &Sources) -> Result<Forks, Memory>
        requires { IsSourcesOf (rule_trees rules.now) sources.now }
        ensures { IfOk result (λ forks. TellsSelectors (rule_trees rules.now) (test_of forks)) }
    {
        let own = own_forks(alloc, rules, sources)?;
        let start = own.nodes_of_rules(alloc, rules)?;
        let uses = uses_of(alloc, rules, sources, &own.names)?;
        let graph = Components::of(alloc, &uses)?;
        let made = graph.reached(alloc, start.as_slice())?;
        Ok(Forks {
            marks: own.with(made.as_slice()),
        })
    }

    /// Whether an `or` or such a selector stands in an expression. Nothing within a scalar is looked at.
    pub fn is_in(&self, alloc: Global, expr: &Expr) -> Result<bool, Memory>
        ensures { IfOk result (λ found. found ≡ has_passing (test_of self.now) (tree expr.now)) }
    {
        holds(alloc, &self.marks, expr)
    }

    /// The same of an expression and of all parts in it, in the order of the text, each before those of its own parts, and whether each is a scalar. Each part is looked at once.
    pub fn are_in(&self, alloc: Global, expr: &Expr) -> Result<Vec<Held>, Memory>
        ensures { IfOk result (λ held. held.items ≡ map (holds self.now.marks) (nodes (tree expr.now))) }
    {
        hold_each(alloc, &self.marks, expr)
    }
}
