//! Uniform worlds, of which what they share is made at first need.
ghost use Rattle.std.specs.Prelude.{◌≡◌, ◌<◌, length, IfOk, IfSome, Some};
ghost use Rattle.lf_ast.specs.Rules.{rule_trees};
ghost use Rattle.lf_deps.specs.views.Names.{IsNameGraphOf};
ghost use Rattle.lf_deps.specs.views.Sources.{IsSourcesOf};
ghost use Rattle.lf_trials.specs.Uniform.{IsUniform};
ghost use Rattle.lf_candidates.specs.views.ClassTexts.{name_at};
ghost use Rattle.lf_candidates.specs.views.Told.{AnswersFor};
ghost use Rattle.lf_worlds.specs.views.Tried.{IsReachAt};

use lf_ast::Rule;
use lf_base::{Memory, Seq};
use lf_candidates::Trial;
use lf_classes::Universe;
use lf_deps::{NameGraph, Sources};
use lf_uniform::Uniform;
use std::alloc::Global;
use std::marker::Model;

/// The uniform worlds of a rule. What they share is made where the first one is asked for.
#[derive(Drop)]
pub struct UniformAtNeed<'a> {
    universe: &'a Universe,
    rules: &'a Seq<Rule>,
    sources: &'a Sources,
    graph: &'a NameGraph,
    reach: &'a Seq<u32>,
    number: u32,
    made: Option<Uniform<'a>>,
}

impl<'a> Model for UniformAtNeed<'a> {
    ghost use Rattle.std.specs.Prelude.{◌≡◌, ◌<◌, length, IfSome};
    ghost use Rattle.std.specs.Coded.{codes};
    ghost use Rattle.lf_ast.specs.Rules.{rule_trees};
    ghost use Rattle.lf_ast.specs.contracts.rule.Rule as rule;
    ghost use Rattle.lf_deps.specs.views.Names.{IsNameGraphOf};
    ghost use Rattle.lf_deps.specs.views.Sources.{IsSourcesOf};
    ghost use Rattle.lf_uniform.specs.views.Worlds.{Uniform};
    ghost use Rattle.lf_worlds.specs.views.Tried.{IsReachAt};

    ghost Value = { Uniform };

    ghost coded = { Prim.hlevel (codes, rule.the_row.coded) };

    ghost view = { λ t. record { universe = t.universe.now; rules = t.rules.now; number = t.number } };

    ghost invariant = { λ t. IsSourcesOf (rule_trees t.rules.now) t.sources.now × IsNameGraphOf t.sources.now t.graph.now × IsReachAt (rule_trees t.rules.now) t.number t.reach.now × (t.number < length t.rules.now) × IfSome t.made (λ uniform. uniform ≡ record { universe = t.universe.now; rules = t.rules.now; number = t.number }) };
}

impl<'a> UniformAtNeed<'a> {
    /// Those of rule `i`, by what is shared by all rules and the rule's reach.
    pub fn new(
        universe: &'a Universe,
        rules: &'a Seq<Rule>,
        sources: &'a Sources,
        graph: &'a NameGraph,
        reach: &'a Seq<u32>,
        i: u32,
    ) -> UniformAtNeed<'a>
        requires sources { IsSourcesOf (rule_trees rules.now) sources.now }
        requires graph { IsNameGraphOf sources.now graph.now }
        requires reach { IsReachAt (rule_trees rules.now) i reach.now }
        requires rule { i < length rules.now }
        ensures { result ≡ record { universe = universe.now; rules = rules.now; number = i } }
    {
        UniformAtNeed {
            universe,
            rules,
            sources,
            graph,
            reach,
            number: i,
            made: None,
        }
    }

    /// The uniform world for a label and a presence.
    pub fn trial(
        &mut self,
        alloc: Global,
        label: u32,
        presence: bool,
    ) -> Result<Option<Trial>, Memory>
        requires { label < length self.old.universe.named }
        ensures same { self.new ≡ self.old }
        ensures answer { IfOk result (AnswersFor (IsUniform self.old.universe (rule_trees self.old.rules) self.old.number (name_at self.old.universe label) presence)) }
    {
        let uniform = self.taken(alloc)?;
        let trial = uniform.trial(alloc, label, presence);
        self.made = Some(uniform);
        trial
    }

    /// What the uniform worlds share: as it was made before, which is taken out, or made now.
    fn taken(&mut self, alloc: Global) -> Result<Uniform<'a>, Memory>
        ensures same { self.new ≡ self.old }
        ensures uniform { IfOk result (λ uniform. uniform ≡ record { universe = self.old.universe; rules = self.old.rules; number = self.old.number }) }
    {
        match self.made.take() {
            Some(uniform) => Ok(uniform),
            None => Uniform::new(
                alloc,
                self.universe,
                self.rules,
                self.sources,
                self.graph,
                self.reach,
                self.number,
            ),
        }
    }
}
