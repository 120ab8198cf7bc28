//! What is known of the labels of rules, by their rows and by trials.
ghost use Rattle.std.specs.Prelude.{◌≡◌, ◌<◌, length, map, slice_get, IfOk, Some};
ghost use Rattle.lf_ast.specs.Rules.{RuleTree, rule_trees};
ghost use Rattle.lf_classes.specs.Limits.{IsWithin};
ghost use Rattle.lf_semantics.specs.ClassRows.{HasShape};
ghost use Rattle.lf_semantics.specs.Environments.{CoversRules, IsEnvironment, IsLeast, rule_row};
ghost use Rattle.lf_semantics.specs.Laws.{SetNoNames};
ghost use Rattle.lf_semantics.specs.Listing.{IsListing};
ghost use Rattle.lf_trials.specs.Candidates.{labels_in};
ghost use Rattle.lf_trials.specs.Verdicts.{AreLabelVerdicts, IsRuleVerdict};
ghost use Rattle.lf_built.specs.views.RuleRows.{AreRowsOf};
ghost use Rattle.lf_worlds.specs.Unresolved.{AreTyped, IsOpenIfUnresolved};
ghost use Rattle.lf_worlds.specs.views.Readings.{AreReadingsBy, AreReadingsOf};
ghost use Rattle.lf_worlds.specs.views.Told.{label_verdict, rule_verdict};
ghost use Rattle.lf_worlds.specs.views.Tried.{IsEvaluatedAt, IsRowAt};

use crate::at_need::UniformAtNeed;
use crate::leaving::{has_open_label, settled};
use crate::of_rule::RuleTrials;
use crate::readings::Readings;
use crate::verdict::{LabelKnowledge, RuleKnowledge};
use lf_ast::Rule;
use lf_base::{Memory, Seq, Text};
use lf_built::{Built, Prepared, RuleRow, rule_rows};
use lf_candidates::label_names;
use lf_classes::{Row, Universe};
use lf_deps::{NameGraph, Sources, reach_of};
use lf_flow::Env;
use lf_forks::Forks;
use std::alloc::Global;
use std::marker::Model;

/// Tells what is known of the labels of rules. What the trials of all rules share is made once.
#[derive(Drop)]
pub struct Trials<'a> {
    universe: &'a Universe,
    env: &'a Env,
    rules: &'a Seq<Rule>,
    sources: &'a Sources,
    graph: &'a NameGraph,
    forks: &'a Forks,
    prepared: Prepared<'a>,
    names: Vec<Text>,
}

impl<'a> Model for Trials<'a> {
    ghost use Rattle.std.specs.Prelude.{◌≡◌};
    ghost use Rattle.std.specs.Coded.{codes};
    ghost use Rattle.lf_ast.specs.Rules.{rule_trees};
    ghost use Rattle.lf_ast.specs.contracts.rule.Rule as rule;
    ghost use Rattle.lf_classes.specs.Limits.{IsWithin};
    ghost use Rattle.lf_semantics.specs.Environments.{CoversRules, IsEnvironment, IsLeast};
    ghost use Rattle.lf_trials.specs.Candidates.{labels_in};
    ghost use Rattle.lf_forks.specs.views.ForkTests.{TellsSelectors};
    ghost use Rattle.lf_forks.specs.views.Holding.{test_of};
    ghost use Rattle.lf_built.specs.views.Indexed.{IsPreparedFor};
    ghost use Rattle.lf_worlds.specs.views.Readings.{AreReadingsBy};
    ghost use Rattle.lf_worlds.specs.views.Tried.{Tried};

    ghost Value = { Tried };

    ghost coded = { Prim.hlevel (codes, rule.the_row.coded) };

    ghost view = { λ t. record { universe = t.universe.now; env = t.env.now; rules = t.rules.now } };

    ghost invariant = { λ t. CoversRules t.universe.now (rule_trees t.rules.now) × IsEnvironment t.universe.now t.env.now × AreReadingsBy (rule_trees t.rules.now) t.sources.now t.graph.now t.prepared.forks.now × IsPreparedFor t.universe.now t.env.now t.rules.now t.prepared.forks.now t.prepared × (t.names.items ≡ labels_in t.universe.now) × IsWithin t.universe.now × IsLeast t.universe.now (rule_trees t.rules.now) t.env.now × TellsSelectors (rule_trees t.rules.now) (test_of t.forks.now) };
}

impl<'a> Trials<'a> {
    /// Those of rules, with their universe and environment, and with what they read.
    pub fn new(
        alloc: Global,
        universe: &'a Universe,
        env: &'a Env,
        rules: &'a Seq<Rule>,
        readings: &'a Readings,
    ) -> Result<Trials<'a>, Memory>
        requires covers { CoversRules universe.now (rule_trees rules.now) }
        requires least { IsLeast universe.now (rule_trees rules.now) env.now }
        requires readings { AreReadingsOf (rule_trees rules.now) readings.now }
        ensures { IfOk result (λ trials. trials ≡ record { universe = universe.now; env = env.now; rules = rules.now }) }
    {
        let (sources, graph, forks) = (&readings.sources, &readings.graph, &readings.forks);
        let rows = rule_rows(alloc, universe, env, rules, sources, forks)?;
        Trials::by(alloc, universe, env, rules, sources, graph, forks, rows)
    }

    /// The same, by the index of the rules, the graph of its names, which selectors are forks or are made by one, and the rows of each rule.
    pub fn by(
        alloc: Global,
        universe: &'a Universe,
        env: &'a Env,
        rules: &'a Seq<Rule>,
        sources: &'a Sources,
        graph: &'a NameGraph,
        forks: &'a Forks,
        rows: Seq<RuleRow>,
    ) -> Result<Trials<'a>, Memory>
        requires covers { CoversRules universe.now (rule_trees rules.now) }
        requires least { IsLeast universe.now (rule_trees rules.now) env.now }
        requires readings { AreReadingsBy (rule_trees rules.now) sources.now graph.now forks.now }
        requires rows { AreRowsOf universe.now env.now forks.now (rule_trees rules.now) rows }
        ensures { IfOk result (λ trials. trials ≡ record { universe = universe.now; env = env.now; rules = rules.now }) }
    {
        // For what its contract says of the universe.
        let _labels = universe.labels();
        let names = label_names(alloc, universe)?;
        let prepared = Prepared::by(alloc, universe, env, rules, sources, forks, rows)?;
        Ok(Trials {
            universe,
            env,
            rules,
            sources,
            graph,
            forks,
            prepared,
            names,
        })
    }

    /// What is known of the labels of the rule with this number, counted from 0: that it is empty where its row is, and else a verdict for each label. A label of which
    /// the row leaves both presences is possible, with the first worlds that show its presence and its absence, where both are shown. Of rules as accepted files have
    /// them a label is unresolved only where a construct stands open, in the rule's expression or in a rule that it reads.
    pub fn rule(&self, alloc: Global, i: u32) -> Result<RuleKnowledge, Memory>
        requires { i < length self.now.rules }
        ensures verdict { (r : RuleTree) → slice_get (rule_trees self.now.rules) i ≡ Some r → IfOk result (λ told. IsRuleVerdict self.now.universe self.now.env (rule_trees self.now.rules) i r (rule_verdict told)) }
        ensures unresolved { AreTyped (rule_trees self.now.rules) → SetNoNames (rule_trees self.now.rules) → IfOk result (λ told. IsOpenIfUnresolved (rule_trees self.now.rules) i (rule_verdict told)) }
    {
        let row = self.row(i)?;
        if row.is_empty() {
            Ok(RuleKnowledge::Empty)
        } else {
            let of = self.labels(alloc, &row, i)?;
            Ok(RuleKnowledge::Labels { of })
        }
    }

    /// The row of the rule with this number. Beside it stands what is known of every universe, environment and rules of trials.
    fn row(&self, i: u32) -> Result<Row, Memory>
        requires { i < length self.now.rules }
        ensures within { IsWithin self.now.universe }
        ensures listing { IsListing self.now.universe }
        ensures environment { IsEnvironment self.now.universe self.now.env }
        ensures covers { CoversRules self.now.universe (rule_trees self.now.rules) }
        ensures least { IsLeast self.now.universe (rule_trees self.now.rules) self.now.env }
        ensures row { (r : RuleTree) → slice_get (rule_trees self.now.rules) i ≡ Some r → IfOk result (λ row. row ≡ rule_row self.now.universe self.now.env r) }
    {
        self.prepared.rule_row(i as usize)
    }

    /// The verdicts on the labels by a row of a rule that isn't empty. Trials are made only where the row leaves both presences of some label.
    fn labels(&self, alloc: Global, row: &Row, i: u32) -> Result<Seq<LabelKnowledge>, Memory>
        requires rule { i < length self.now.rules }
        requires evaluated { IsEvaluatedAt (rule_trees self.now.rules) i }
        requires shape { HasShape self.now.universe row.now }
        requires row { IsRowAt self.now.universe self.now.env (rule_trees self.now.rules) i row.now }
        ensures { IfOk result (λ of. AreLabelVerdicts self.now.universe self.now.env (rule_trees self.now.rules) i row.now (labels_in self.now.universe) (map label_verdict of)) }
    {
        if has_open_label(self.universe, row) {
            self.tried(alloc, row, i)
        } else {
            settled(alloc, self.universe, row)
        }
    }

    /// The verdicts on the labels by a row of a rule that isn't empty, by trials.
    fn tried(&self, alloc: Global, row: &Row, i: u32) -> Result<Seq<LabelKnowledge>, Memory>
        requires rule { i < length self.now.rules }
        requires evaluated { IsEvaluatedAt (rule_trees self.now.rules) i }
        requires shape { HasShape self.now.universe row.now }
        requires row { IsRowAt self.now.universe self.now.env (rule_trees self.now.rules) i row.now }
        ensures { IfOk result (λ of. AreLabelVerdicts self.now.universe self.now.env (rule_trees self.now.rules) i row.now (labels_in self.now.universe) (map label_verdict of)) }
    {
        let reach = reach_of(alloc, self.sources, self.graph, i)?;
        let built = Built::new(alloc, &self.prepared, &reach, row, i)?;
        let uniform = UniformAtNeed::new(
            self.universe,
            self.rules,
            self.sources,
            self.graph,
            &reach,
            i,
        );
        let names = self.names.as_slice();
        let mut trials = RuleTrials::new(
            self.universe,
            self.env,
            self.rules,
            names,
            self.forks,
            i,
            built,
            uniform,
        );
        trials.verdicts(alloc, row)
    }
}
