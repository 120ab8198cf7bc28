//! The trials of one rule.
ghost use Rattle.std.specs.Prelude.{◌≡◌, ◌<◌, Bool, false, length, map, true, IfOk};
ghost use Rattle.lf_ast.specs.Rules.{rule_trees};
ghost use Rattle.lf_ast.specs.Tree.{Tree};
ghost use Rattle.lf_classes.specs.Limits.{IsWithin};
ghost use Rattle.lf_semantics.specs.ClassRows.{HasShape, Sets};
ghost use Rattle.lf_trials.specs.Candidates.{labels_in};
ghost use Rattle.lf_trials.specs.Forks.{TellsForks};
ghost use Rattle.lf_trials.specs.Trials.{IsFirstShown, ShowsBuilt, ShowsUniform};
ghost use Rattle.lf_trials.specs.Verdicts.{AreLabelVerdicts, IsLabelVerdict, LeavesBoth};
ghost use Rattle.lf_candidates.specs.views.ClassTexts.{name_at};
ghost use Rattle.lf_forks.specs.views.ForkTests.{TellsSelectors};
ghost use Rattle.lf_forks.specs.views.Holding.{test_of};
ghost use Rattle.lf_worlds.specs.views.Told.{label_verdict, shown_by};
ghost use Rattle.lf_worlds.specs.views.Tried.{IsAbsence, IsEvaluatedAt, IsForkedAt, IsLeft, IsRowAt, ShownFor};

use crate::at_need::UniformAtNeed;
use crate::leaving::{by_row, leaves_both};
use crate::showing::{Evaluated, evaluate_if, world_if_shown};
use crate::verdict::{LabelKnowledge, ShownWorlds};
use lf_ast::{Rule, World};
use lf_base::{Memory, Seq, Text};
use lf_built::Built;
use lf_classes::{Row, Universe};
use lf_flow::Env;
use lf_forks::Forks;
use std::alloc::Global;
use std::marker::Model;

/// The trials of one rule.
#[derive(Drop)]
pub struct RuleTrials<'a> {
    universe: &'a Universe,
    env: &'a Env,
    rules: &'a Seq<Rule>,
    names: &'a [Text],
    number: u32,
    forks: &'a Forks,
    built: Built<'a>,
    uniform: UniformAtNeed<'a>,
    /// The built trial for the absence of a label.
    absence: Option<Evaluated>,
    /// Whether the rule's expression holds a fork, once that is known.
    forked: Option<bool>,
}

impl<'a> Model for RuleTrials<'a> {
    ghost use Rattle.std.specs.Coded.{codes};
    ghost use Rattle.lf_ast.specs.contracts.rule.Rule as rule;
    ghost use Rattle.lf_built.specs.views.Built.{OfRule};

    ghost Value = { OfRule };

    ghost coded = { Prim.hlevel (codes, rule.the_row.coded) };

    ghost use Rattle.std.specs.Prelude.{◌≡◌, ◌<◌, length, IfSome};
    ghost use Rattle.lf_ast.specs.Rules.{rule_trees};
    ghost use Rattle.lf_classes.specs.Limits.{IsWithin};
    ghost use Rattle.lf_trials.specs.Candidates.{labels_in};
    ghost use Rattle.lf_trials.specs.Forks.{has_passing};
    ghost use Rattle.lf_forks.specs.views.ForkTests.{TellsSelectors};
    ghost use Rattle.lf_forks.specs.views.Holding.{test_of};
    ghost use Rattle.lf_worlds.specs.views.Tried.{IsAbsence, IsEvaluatedAt, IsForkedAt};

    ghost view = { λ t. record { universe = t.universe.now; env = t.env.now; rules = t.rules.now; number = t.number } };

    ghost invariant = { λ t. (t.names.now ≡ labels_in t.universe.now) × (t.number < length t.rules.now) × IsEvaluatedAt (rule_trees t.rules.now) t.number × (t.built ≡ record { universe = t.universe.now; env = t.env.now; rules = t.rules.now; number = t.number }) × (t.uniform ≡ record { universe = t.universe.now; rules = t.rules.now; number = t.number }) × IsWithin t.universe.now × TellsSelectors (rule_trees t.rules.now) (test_of t.forks.now) × IfSome t.absence (IsAbsence t.universe.now t.env.now (rule_trees t.rules.now) t.number) × IfSome t.forked (IsForkedAt (rule_trees t.rules.now) t.number (has_passing (test_of t.forks.now))) };
}

impl<'a> RuleTrials<'a> {
    /// Those of a rule that is a scalar or a vector, by the names of the labels and the two kinds of worlds that are tried.
    pub fn new(
        universe: &'a Universe,
        env: &'a Env,
        rules: &'a Seq<Rule>,
        names: &'a [Text],
        forks: &'a Forks,
        i: u32,
        built: Built<'a>,
        uniform: UniformAtNeed<'a>,
    ) -> RuleTrials<'a>
        requires within { IsWithin universe.now }
        requires names { names.now ≡ labels_in universe.now }
        requires rule { i < length rules.now }
        requires evaluated { IsEvaluatedAt (rule_trees rules.now) i }
        requires forks { TellsSelectors (rule_trees rules.now) (test_of forks.now) }
        requires built { built ≡ record { universe = universe.now; env = env.now; rules = rules.now; number = i } }
        requires uniform { uniform ≡ record { universe = universe.now; rules = rules.now; number = i } }
        ensures { result ≡ record { universe = universe.now; env = env.now; rules = rules.now; number = i } }
    {
        RuleTrials {
            universe,
            env,
            rules,
            names,
            number: i,
            forks,
            built,
            uniform,
            absence: None,
            forked: None,
        }
    }

    /// The verdicts on the labels by a row of the rule that isn't empty.
    pub fn verdicts(&mut self, alloc: Global, row: &Row) -> Result<Seq<LabelKnowledge>, Memory>
        requires shape { HasShape self.old.universe row.now }
        requires row { IsRowAt self.old.universe self.old.env (rule_trees self.old.rules) self.old.number row.now }
        ensures { IfOk result (λ of. AreLabelVerdicts self.old.universe self.old.env (rule_trees self.old.rules) self.old.number row.now (labels_in self.old.universe) (map label_verdict of)) }
    {
        let count = self.universe.labels() as usize;
        let mut verdicts = Seq::with_capacity(alloc, count)?;
        for label in 0..self.universe.labels() {
            verdicts.push(self.verdict(alloc, row, label)?)?;
        }
        Ok(verdicts)
    }

    /// The verdict on a label by a row.
    fn verdict(&mut self, alloc: Global, row: &Row, label: u32) -> Result<LabelKnowledge, Memory>
        requires label { label < length self.old.universe.named }
        requires shape { HasShape self.old.universe row.now }
        requires row { IsRowAt self.old.universe self.old.env (rule_trees self.old.rules) self.old.number row.now }
        ensures same { self.new ≡ self.old }
        ensures verdict { IfOk result (λ v. IsLabelVerdict self.old.universe self.old.env (rule_trees self.old.rules) self.old.number row.now (name_at self.old.universe label) (label_verdict v)) }
    {
        if leaves_both(self.universe, row, label) {
            self.tried(alloc, label)
        } else {
            Ok(by_row(self.universe, row, label))
        }
    }

    /// The verdict on a label of which both presences are left.
    fn tried(&mut self, alloc: Global, label: u32) -> Result<LabelKnowledge, Memory>
        requires label { label < length self.old.universe.named }
        requires left { (presence : Bool) → IsLeft self.old.universe self.old.env (rule_trees self.old.rules) self.old.number (name_at self.old.universe label) presence }
        ensures same { self.new ≡ self.old }
        ensures verdict { (row : Sets) → LeavesBoth self.old.universe self.old.env (rule_trees self.old.rules) self.old.number row (name_at self.old.universe label) → IfOk result (λ v. IsLabelVerdict self.old.universe self.old.env (rule_trees self.old.rules) self.old.number row (name_at self.old.universe label) (label_verdict v)) }
    {
        match self.first_shown(alloc, label, true)? {
            Some(with) => self.beside(alloc, label, with),
            None => Ok(LabelKnowledge::Unresolved),
        }
    }

    /// The verdict on a label of which both presences are left, and that is shown to be present.
    fn beside(&mut self, alloc: Global, label: u32, with: World) -> Result<LabelKnowledge, Memory>
        requires label { label < length self.old.universe.named }
        requires left { (presence : Bool) → IsLeft self.old.universe self.old.env (rule_trees self.old.rules) self.old.number (name_at self.old.universe label) presence }
        requires with { IsFirstShown self.old.universe self.old.env (rule_trees self.old.rules) self.old.number (name_at self.old.universe label) true (shown_by with) }
        ensures same { self.new ≡ self.old }
        ensures verdict { (row : Sets) → LeavesBoth self.old.universe self.old.env (rule_trees self.old.rules) self.old.number row (name_at self.old.universe label) → IfOk result (λ v. IsLabelVerdict self.old.universe self.old.env (rule_trees self.old.rules) self.old.number row (name_at self.old.universe label) (label_verdict v)) }
    {
        match self.first_shown(alloc, label, false)? {
            Some(without) => {
                let shown = Box::new(alloc, ShownWorlds { with, without })?;
                Ok(LabelKnowledge::Possible { shown })
            }
            None => Ok(LabelKnowledge::Unresolved),
        }
    }

    /// The first world that shows a presence of a label: the built one, or else the uniform one.
    fn first_shown(
        &mut self,
        alloc: Global,
        label: u32,
        presence: bool,
    ) -> Result<Option<World>, Memory>
        requires label { label < length self.old.universe.named }
        requires left { IsLeft self.old.universe self.old.env (rule_trees self.old.rules) self.old.number (name_at self.old.universe label) presence }
        ensures same { self.new ≡ self.old }
        ensures shown { IfOk result (ShownFor (IsFirstShown self.old.universe self.old.env (rule_trees self.old.rules) self.old.number (name_at self.old.universe label) presence)) }
    {
        match self.by_built(alloc, label, presence)? {
            Some(world) => Ok(Some(world)),
            None => self.by_uniform(alloc, label, presence),
        }
    }

    /// The built world that shows a presence of a label.
    fn by_built(
        &mut self,
        alloc: Global,
        label: u32,
        presence: bool,
    ) -> Result<Option<World>, Memory>
        requires label { label < length self.old.universe.named }
        requires left { IsLeft self.old.universe self.old.env (rule_trees self.old.rules) self.old.number (name_at self.old.universe label) presence }
        ensures same { self.new ≡ self.old }
        ensures shown { IfOk result (ShownFor (ShowsBuilt self.old.universe self.old.env (rule_trees self.old.rules) self.old.number (name_at self.old.universe label) presence)) }
    {
        if presence {
            self.by_trial(alloc, label, true)
        } else {
            self.by_absence(alloc, label)
        }
    }

    /// The built world that shows a presence of a label, of a trial of its own.
    fn by_trial(&self, alloc: Global, label: u32, presence: bool) -> Result<Option<World>, Memory>
        requires { label < length self.now.universe.named }
        ensures { IfOk result (ShownFor (ShowsBuilt self.now.universe self.now.env (rule_trees self.now.rules) self.now.number (name_at self.now.universe label) presence)) }
    {
        let trial = self.built.trial(alloc, label, presence)?;
        world_if_shown(
            alloc,
            self.universe,
            self.rules,
            self.number,
            name_of(self.universe, self.names, label),
            presence,
            trial,
        )
    }

    /// The built world that shows the absence of a label. Where the rule's expression holds no fork, one trial is that of all labels whose absence the row leaves, and the one
    /// that was made for another label is taken.
    fn by_absence(&mut self, alloc: Global, label: u32) -> Result<Option<World>, Memory>
        requires label { label < length self.old.universe.named }
        requires left { IsLeft self.old.universe self.old.env (rule_trees self.old.rules) self.old.number (name_at self.old.universe label) false }
        ensures same { self.new ≡ self.old }
        ensures shown { IfOk result (ShownFor (ShowsBuilt self.old.universe self.old.env (rule_trees self.old.rules) self.old.number (name_at self.old.universe label) false)) }
    {
        if self.forked == Some(true) {
            return self.by_trial(alloc, label, false);
        }
        match self.absence.take() {
            Some(kept) => self.by_kept(alloc, label, kept),
            None => self.by_first(alloc, label),
        }
    }

    /// The same by the trial for the absence of another label.
    fn by_kept(
        &mut self,
        alloc: Global,
        label: u32,
        kept: Evaluated,
    ) -> Result<Option<World>, Memory>
        requires label { label < length self.old.universe.named }
        requires left { IsLeft self.old.universe self.old.env (rule_trees self.old.rules) self.old.number (name_at self.old.universe label) false }
        requires kept { IsAbsence self.old.universe self.old.env (rule_trees self.old.rules) self.old.number kept }
        ensures same { self.new ≡ self.old }
        ensures shown { IfOk result (ShownFor (ShowsBuilt self.old.universe self.old.env (rule_trees self.old.rules) self.old.number (name_at self.old.universe label) false)) }
    {
        if self.has_fork(alloc)? {
            return self.by_trial(alloc, label, false);
        }
        let name = name_of(self.universe, self.names, label);
        let world = kept.world(name.as_str(), false);
        self.absence = Some(kept);
        world
    }

    /// The same by a trial of its own, which is kept.
    fn by_first(&mut self, alloc: Global, label: u32) -> Result<Option<World>, Memory>
        requires { label < length self.old.universe.named }
        ensures same { self.new ≡ self.old }
        ensures shown { IfOk result (ShownFor (ShowsBuilt self.old.universe self.old.env (rule_trees self.old.rules) self.old.number (name_at self.old.universe label) false)) }
    {
        let trial = self.built.trial(alloc, label, false)?;
        match evaluate_if(alloc, self.universe, self.rules, self.number, trial)? {
            Some(made) => {
                let name = name_of(self.universe, self.names, label);
                let world = made.world(name.as_str(), false);
                self.absence = Some(made);
                world
            }
            None => Ok(None),
        }
    }

    /// Whether the rule's expression holds a fork. It is looked at once.
    fn has_fork(&mut self, alloc: Global) -> Result<bool, Memory>
        ensures same { self.new ≡ self.old }
        ensures fork { IfOk result (λ forked. (holds_fork : Tree → Bool) → TellsForks (rule_trees self.old.rules) holds_fork → IsForkedAt (rule_trees self.old.rules) self.old.number holds_fork forked) }
    {
        match self.forked {
            Some(forked) => Ok(forked),
            None => {
                let rule = self.rules.get(self.number as usize);
                let forked = self.forks.is_in(alloc, &rule.expr)?;
                self.forked = Some(forked);
                Ok(forked)
            }
        }
    }

    /// The uniform world that shows a presence of a label.
    fn by_uniform(
        &mut self,
        alloc: Global,
        label: u32,
        presence: bool,
    ) -> Result<Option<World>, Memory>
        requires { label < length self.old.universe.named }
        ensures same { self.new ≡ self.old }
        ensures shown { IfOk result (ShownFor (ShowsUniform self.old.universe self.old.env (rule_trees self.old.rules) self.old.number (name_at self.old.universe label) presence)) }
    {
        let trial = self.uniform.trial(alloc, label, presence)?;
        world_if_shown(
            alloc,
            self.universe,
            self.rules,
            self.number,
            name_of(self.universe, self.names, label),
            presence,
            trial,
        )
    }
}

/// The name of a label.
fn name_of<'a>(universe: &Universe, names: &'a [Text], label: u32) -> &'a Text
    requires names { names.now ≡ labels_in universe.now }
    requires label { label < length universe.now.named }
    ensures { result.now ≡ name_at universe.now label }
{
    let _labels = universe.labels();
    &names[label as usize]
}
