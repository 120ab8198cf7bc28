//! What rounds know of the rules that they are over.
ghost use Rattle.std.specs.Prelude.{◌≡◌, false, IfOk};
ghost use Rattle.lf_ast.specs.Rules.{rule_tree, rule_trees};
ghost use Rattle.lf_deps.specs.views.Sources.{IsSourcesOf};
ghost use Rattle.lf_semantics.specs.Listing.{place};
ghost use Rattle.lf_rounds.specs.views.Noting.{ArePlaced, IsKnown};
ghost use Rattle.lf_rounds.specs.views.Reading.{AreEachSelected};

use lf_ast::Rule;
use lf_base::{Memory, Seq};
use lf_classes::TextSet;
use lf_deps::{Sources, rule_number};
use lf_flow::numbers_selected;
use std::alloc::Global;

/// Of each rule the number of the name that it records, and the numbers of those whose rows it reads. It is made once for all rounds over the same rules.
#[derive(Drop)]
pub(crate) struct RecordedReads {
    pub(crate) names: Seq<u32>,
    pub(crate) reads: Seq<Seq<u32>>,
}

impl RecordedReads {
    /// What is known of rules, by their index.
    pub(crate) fn of(
        alloc: Global,
        rules: &Seq<Rule>,
        sources: &Sources,
    ) -> Result<RecordedReads, Memory>
        requires { IsSourcesOf (rule_trees rules.now) sources.now }
        ensures { IfOk result (λ known. IsKnown (rule_trees rules.now) known.names known.reads) }
    {
        let names = recorded_by_all(alloc, rules, sources.recorded())?;
        let reads = read_by_all(alloc, sources)?;
        Ok(RecordedReads { names, reads })
    }
}

/// Of each rule the number of the name that it records. An alert's says nothing.
fn recorded_by_all(alloc: Global, rules: &Seq<Rule>, recorded: &TextSet) -> Result<Seq<u32>, Memory>
    ensures { IfOk result (ArePlaced recorded.now (rule_trees rules.now)) }
{
    let mut numbers = Seq::with_capacity(alloc, rules.len())?;
    for k in 0..rules.len() {
        let number = recorded_by(rules.get(k), recorded)?;
        numbers.push(number)?;
    }
    Ok(numbers)
}

/// The number of the name that a rule records, and 0 for an alert.
fn recorded_by(rule: &Rule, recorded: &TextSet) -> Result<u32, Memory>
    ensures { rule.now.alert ≡ false → IfOk result (λ number. number ≡ place recorded.now (rule_tree rule.now).name) }
{
    if rule.alert {
        return Ok(0);
    }
    rule_number(recorded.place(rule.name.as_str()))
}

/// Of each rule the numbers of the names that it reads.
fn read_by_all(alloc: Global, sources: &Sources) -> Result<Seq<Seq<u32>>, Memory>
    ensures { IfOk result (AreEachSelected sources.now.names sources.now.selected) }
{
    let mut all = Seq::with_capacity(alloc, sources.rule_count())?;
    for k in 0..sources.rule_count() {
        let numbers = numbers_selected(alloc, sources.recorded(), sources.selected_by(k))?;
        all.push(numbers)?;
    }
    Ok(all)
}
