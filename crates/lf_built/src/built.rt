//! The built worlds of a rule.
ghost use Rattle.std.specs.Prelude.{◌≡◌, ◌<◌, Some, length, slice_get, IfOk};
ghost use Rattle.lf_ast.specs.Rules.{RuleTree, rule_trees};
ghost use Rattle.lf_semantics.specs.Environments.{rule_row};
ghost use Rattle.lf_trials.specs.Built.{IsBuilt, built_trial};
ghost use Rattle.lf_trials.specs.Given.{Given, giving, nothing_given};
ghost use Rattle.lf_trials.specs.Reached.{IsReach};
ghost use Rattle.lf_candidates.specs.views.ClassTexts.{IsClass, Stands, name_at, text_at};
ghost use Rattle.lf_candidates.specs.views.Told.{AnswersFor};
ghost use Rattle.lf_forks.specs.views.ForkTests.{TellsSelectors};
ghost use Rattle.lf_forks.specs.views.Holding.{test_of};
ghost use Rattle.lf_built.specs.views.Begun.{IsTrialOf, begun_of};
ghost use Rattle.lf_built.specs.views.Built.{IsOfRule, OfRule};
ghost use Rattle.lf_built.specs.views.Indexed.{IsPrepared, env_of, trees_of, universe_of};
ghost use Rattle.lf_built.specs.views.Works.{Builds, so_far};

use crate::bound::most_selectors;
use crate::made::BuiltSeries;
use crate::marks::Marks;
use crate::once::each_once;
use crate::prepared::Prepared;
use crate::spots::Spot;
use crate::work::{Pending, Work};
use lf_base::{Memory, Seq};
use lf_candidates::{LabelTexts, Trial, first_class_with};
use lf_classes::Row;
use std::alloc::Global;
use std::marker::Model;

/// How many tasks there is room for from the start: most expressions have no more at a time.
const FEW_TASKS: usize = 8;

/// What the built worlds of one rule share.
#[derive(Drop)]
pub struct Built<'a> {
    prepared: &'a Prepared<'a>,
    number: u32,
    row: &'a Row,
    most: usize,
}

impl<'a> Model for Built<'a> {
    ghost use Rattle.std.specs.Coded.{codes};
    ghost use Rattle.lf_ast.specs.contracts.rule.Rule as rule;
    ghost use Rattle.lf_built.specs.views.Built.{IsOfRule, OfRule};
    ghost use Rattle.lf_built.specs.views.Indexed.{env_of, universe_of};

    ghost Value = { OfRule };

    ghost coded = { Prim.hlevel (codes, rule.the_row.coded) };

    ghost view = { λ b. record { universe = universe_of b.prepared.now; env = env_of b.prepared.now; rules = b.prepared.now.rules.now; number = b.number } };

    ghost invariant = { λ b. IsOfRule b.prepared.now b.number b.row.now b.most };
}

impl<'a> Built<'a> {
    /// Those of the rule with this number, which has this reach and this row.
    pub fn new(
        alloc: Global,
        prepared: &'a Prepared<'a>,
        reach: &Seq<u32>,
        row: &'a Row,
        i: u32,
    ) -> Result<Built<'a>, Memory>
        requires prepared { IsPrepared prepared.now }
        requires forks { TellsSelectors (trees_of prepared.now) (test_of prepared.now.forks.now) }
        requires rule { i < length prepared.now.rules.now }
        requires reach { (r : RuleTree) → slice_get (trees_of prepared.now) i ≡ Some r → IsReach (trees_of prepared.now) r.expr reach.now }
        requires row { (r : RuleTree) → slice_get (trees_of prepared.now) i ≡ Some r → row.now ≡ rule_row (universe_of prepared.now) (env_of prepared.now) r }
        ensures { IfOk result (λ built. built ≡ record { universe = universe_of prepared.now; env = env_of prepared.now; rules = prepared.now.rules.now; number = i }) }
    {
        let most = most_selectors(prepared.sources, reach, i)?;
        Ok(Built {
            prepared,
            number: i,
            row,
            most,
        })
    }

    /// The built world for a label and a presence, and none where there is none.
    pub fn trial(&self, alloc: Global, label: u32, presence: bool) -> Result<Option<Trial>, Memory>
        requires { label < length self.now.universe.named }
        ensures { IfOk result (AnswersFor (IsBuilt self.now.universe self.now.env (rule_trees self.now.rules) self.now.number (name_at self.now.universe label) presence)) }
    {
        match first_class_with(self.prepared.universe, self.row, label, presence) {
            Some(class) => {
                trial_from(alloc, self.prepared, self.number, self.most, label, class)
            },
            None => Ok(None),
        }
    }
}

/// The world that is built for a rule from one text: that of a class of a label.
fn trial_from<'a>(
    alloc: Global,
    prepared: &'a Prepared<'a>,
    number: u32,
    most: usize,
    label: u32,
    class: u32,
) -> Result<Option<Trial>, Memory>
    requires known { IsPrepared prepared.now }
    requires number { number < length prepared.now.rules.now }
    requires label { label < length (universe_of prepared.now).named }
    requires class { IsClass (universe_of prepared.now) label (Some class) }
    ensures { (r : RuleTree) → slice_get (trees_of prepared.now) number ≡ Some r → IfOk result (IsTrialOf most (begun_of prepared.now number r (giving (name_at (universe_of prepared.now) label) (text_at (universe_of prepared.now) label class) nothing_given))) }
{
    let mut texts = LabelTexts::nothing(alloc, prepared.universe)?;
    texts.give(label, class);
    let work = begin(alloc, prepared, number, texts)?;
    match prepared.build(alloc, most, work)? {
        Some(made) => {
            let trial = trial_of(alloc, made)?;
            Ok(Some(trial))
        }
        None => Ok(None),
    }
}

/// A building of a rule from texts: its expression is to be built, and the rule is marked.
fn begin<'a>(
    alloc: Global,
    prepared: &'a Prepared<'a>,
    number: u32,
    texts: LabelTexts,
) -> Result<Work<'a>, Memory>
    requires { number < length prepared.now.rules.now }
    ensures { (D : Given) (r : RuleTree) → Stands (universe_of prepared.now) texts D → slice_get (trees_of prepared.now) number ≡ Some r → IfOk result (λ work. Builds prepared.now (begun_of prepared.now number r D) work × (work.made.selectors ≡ 0)) }
{
    let number = number as usize;
    let spot = Spot {
        rule: number,
        place: 0,
        expr: &prepared.rules.get(number).expr,
    };
    let mut stack = Vec::with_capacity(alloc, FEW_TASKS)?;
    stack.push(Pending::Visit { spot, texts })?;
    let marked = Marks::of(alloc, number)?;
    Ok(Work {
        stack,
        marked,
        unmarked: prepared.rules.len(),
        made: BuiltSeries::nothing(alloc),
    })
}

/// What was built as a trial: each series once.
fn trial_of(alloc: Global, made: BuiltSeries) -> Result<Trial, Memory>
    ensures { IfOk result (λ trial. trial ≡ built_trial (so_far made)) }
{
    let series = each_once(alloc, made.series)?;
    Ok(Trial {
        series,
        steps: Seq::from_vec(made.steps),
    })
}
