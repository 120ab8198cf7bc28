//! Uniform worlds of a rule.
ghost use Rattle.std.specs.Prelude.{◌≡◌, ◌<◌, ℕ, List, IfOk, Some, length, slice_get};
ghost use Rattle.lf_ast.specs.Rules.{RuleTree, rule_trees};
ghost use Rattle.lf_deps.specs.views.Names.{IsNameGraphOf};
ghost use Rattle.lf_deps.specs.views.Sources.{IsSourcesOf};
ghost use Rattle.lf_trials.specs.Reached.{IsReach, with_reach};
ghost use Rattle.lf_trials.specs.Uniform.{IsUniform, uniform_texts};
ghost use Rattle.lf_candidates.specs.views.ClassTexts.{Stands, name_at};
ghost use Rattle.lf_candidates.specs.views.Told.{AnswersFor};
ghost use Rattle.lf_uniform.specs.views.Texts.{wanted_for};
ghost use Rattle.lf_uniform.specs.views.Ways.{IsUncyclic};
ghost use Rattle.lf_uniform.specs.views.Worlds.{ArePrepared, IsPrepared};

use crate::line::Line;
use crate::naming::series_names;
use crate::reaching::{passes_over, selects_cyclic, with_reach};
use crate::series::series;
use crate::setting::Setting;
use crate::texts::{WantedPresence, first_followed, first_texts};
use lf_ast::Rule;
use lf_base::{Memory, Seq, Text};
use lf_candidates::{LabelTexts, Trial, label_names};
use lf_classes::{TextSet, Universe};
use lf_deps::{NameGraph, Sources};
use std::alloc::Global;
use std::marker::Model;

/// How many rules may be in reach.
const MOST_RULES: usize = 256;

/// The uniform worlds of a rule. What they share is made once.
#[derive(Drop)]
pub struct Uniform<'a> {
    setting: Setting<'a>,
    number: u32,
    reach: &'a Seq<u32>,
    shared: Option<Shared>,
}

/// What the uniform worlds of a rule share: the line of the rules that it reads, the names of the labels, the text of each label but the one in question, and the names of
/// the series.
#[derive(Drop)]
pub struct Shared {
    pub line: Line,
    pub labels: Vec<Text>,
    pub texts: LabelTexts,
    pub names: TextSet,
}

impl<'a> Model for Uniform<'a> {
    ghost use Rattle.std.specs.Coded.{codes};
    ghost use Rattle.lf_ast.specs.Rules.{rule_trees};
    ghost use Rattle.lf_ast.specs.contracts.rule.Rule as rule;
    ghost use Rattle.lf_uniform.specs.views.Worlds.{ArePrepared, Uniform};

    ghost Value = { Uniform };

    ghost coded = { Prim.hlevel (codes, rule.the_row.coded) };

    ghost view = { λ w. record { universe = w.setting.universe; rules = w.setting.rules; number = w.number } };

    ghost invariant = { λ w. ArePrepared w.setting.universe (rule_trees w.setting.rules) w.number w.reach.now w.shared };
}

impl<'a> Uniform<'a> {
    /// Those of the rule of a number, by its reach. `sources` and `graph` are made once for all rules.
    pub fn new(
        alloc: Global,
        universe: &'a Universe,
        rules: &'a Seq<Rule>,
        sources: &'a Sources,
        graph: &NameGraph,
        reach: &'a Seq<u32>,
        number: u32,
    ) -> Result<Uniform<'a>, Memory>
        requires rule { number < length rules.now }
        requires sources { IsSourcesOf (rule_trees rules.now) sources.now }
        requires graph { IsNameGraphOf sources.now graph.now }
        requires reach { (own : RuleTree) → slice_get (rule_trees rules.now) number ≡ Some own → IsReach (rule_trees rules.now) own.expr reach.now }
        ensures { IfOk result (λ uniform. uniform ≡ record { universe = universe.now; rules = rules.now; number = number }) }
    {
        let setting = Setting::new(universe, rules, sources);
        let shared = shared_by(alloc, &setting, sources, graph, reach.as_slice(), number)?;
        Ok(Uniform {
            setting,
            number,
            reach,
            shared,
        })
    }

    /// The uniform world for a label, by its number, and a presence: that it is there, or that it is absent. There is one at most.
    pub fn trial(&self, alloc: Global, label: u32, presence: bool) -> Result<Option<Trial>, Memory>
        requires { label < length self.now.universe.named }
        ensures { IfOk result (AnswersFor (IsUniform self.now.universe (rule_trees self.now.rules) self.now.number (name_at self.now.universe label) presence)) }
    {
        match &self.shared {
            Some(shared) => tried(
                alloc,
                &self.setting,
                shared,
                self.reach.as_slice(),
                self.number,
                label,
                presence,
            ),
            None => Ok(None),
        }
    }
}

/// What the uniform worlds of a rule share, or nothing where there is none: where more than 256 rules are in reach, and where a selector is of a name that is read in its
/// own making.
fn shared_by(
    alloc: Global,
    setting: &Setting,
    sources: &Sources,
    graph: &NameGraph,
    reach: &[u32],
    number: u32,
) -> Result<Option<Shared>, Memory>
    requires rule { number < length setting.now.rules }
    requires sources { IsSourcesOf (rule_trees setting.now.rules) sources.now }
    requires graph { IsNameGraphOf sources.now graph.now }
    requires reach { (own : RuleTree) → slice_get (rule_trees setting.now.rules) number ≡ Some own → IsReach (rule_trees setting.now.rules) own.expr reach.now }
    ensures { IfOk result (ArePrepared setting.now.universe (rule_trees setting.now.rules) number reach.now) }
{
    if reach.len() > MOST_RULES {
        return Ok(None);
    }
    let numbers = with_reach(alloc, number, reach)?;
    if selects_cyclic(sources, graph, numbers.as_slice()) {
        return Ok(None);
    }
    let shared = prepared(alloc, setting, reach, numbers.as_slice(), number)?;
    Ok(Some(shared))
}

/// What the uniform worlds of a rule share, by its reach and the rule with its reach.
fn prepared(
    alloc: Global,
    setting: &Setting,
    reach: &[u32],
    numbers: &[u32],
    number: u32,
) -> Result<Shared, Memory>
    requires rule { number < length setting.now.rules }
    requires numbers { numbers.now ≡ with_reach number reach.now }
    requires reach { (own : RuleTree) → slice_get (rule_trees setting.now.rules) number ≡ Some own → IsReach (rule_trees setting.now.rules) own.expr reach.now }
    requires uncyclic { IsUncyclic (rule_trees setting.now.rules) numbers.now }
    ensures { (own : RuleTree) → slice_get (rule_trees setting.now.rules) number ≡ Some own → IfOk result (IsPrepared setting.now.universe (rule_trees setting.now.rules) number reach.now own) }
{
    let line = Line::of(alloc, setting.rules(), setting.sources(), reach)?;
    let labels = label_names(alloc, setting.universe())?;
    let texts = first_texts(alloc, setting, &line, number, labels.as_slice())?;
    let names = series_names(alloc, setting, numbers)?;
    Ok(Shared {
        line,
        labels,
        texts,
        names,
    })
}

/// The uniform world for a label and a presence, by what is shared.
fn tried(
    alloc: Global,
    setting: &Setting,
    shared: &Shared,
    reach: &[u32],
    number: u32,
    label: u32,
    presence: bool,
) -> Result<Option<Trial>, Memory>
    requires label { label < length setting.now.universe.named }
    requires prepared { ArePrepared setting.now.universe (rule_trees setting.now.rules) number reach.now (Some shared.now) }
    ensures { IfOk result (AnswersFor (IsUniform setting.now.universe (rule_trees setting.now.rules) number (name_at setting.now.universe label) presence)) }
{
    let texts = texts_with(alloc, setting, shared, number, label, presence)?;
    if !texts.is_whole() {
        return Ok(None);
    }
    let labels = shared.labels.as_slice();
    let series = series(alloc, setting.universe(), labels, &texts, &shared.names)?;
    let steps = passes_over(alloc, reach)?;
    Ok(Some(Trial { series, steps }))
}

/// The texts of the labels, of which the one in question has the presence.
fn texts_with(
    alloc: Global,
    setting: &Setting,
    shared: &Shared,
    number: u32,
    label: u32,
    presence: bool,
) -> Result<LabelTexts, Memory>
    requires label { label < length setting.now.universe.named }
    requires prepared { (own : RuleTree) × (slice_get (rule_trees setting.now.rules) number ≡ Some own) × (reach : List ℕ) × IsPrepared setting.now.universe (rule_trees setting.now.rules) number reach own shared.now }
    ensures { (own : RuleTree) → slice_get (rule_trees setting.now.rules) number ≡ Some own → IfOk result (λ texts. Stands setting.now.universe texts (uniform_texts setting.now.universe (rule_trees setting.now.rules) number own (name_at setting.now.universe label) presence)) }
{
    let place = label as usize;
    let class = first_followed(
        alloc,
        setting,
        &shared.line,
        number,
        label,
        &shared.labels[place],
        wanted_for(presence),
    )?;
    let mut texts = shared.texts.copy()?;
    texts.put(place, class);
    Ok(texts)
}

/// How a label is to come out for a presence.
fn wanted_for(presence: bool) -> WantedPresence
    ensures { result ≡ wanted_for presence }
{
    if presence {
        WantedPresence::Present
    } else {
        WantedPresence::Absent
    }
}
