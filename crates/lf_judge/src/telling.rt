//! What is told of rules, each by one of the workers.
ghost use Rattle.std.specs.Prelude.{◌≡◌, ◌≤◌, ◌<◌, ℕ, Bool, true, false, Some, None, length, map, if◌then◌else◌, IfOk};
ghost use Rattle.lf_ast.specs.Rules.{rule_tree, rule_trees};
ghost use Rattle.lf_checks.specs.AlertTemplate.{HaveSources};
ghost use Rattle.lf_checks.specs.Files.{StandIn};
ghost use Rattle.lf_checks.specs.views.Recorded.{AreOf};
ghost use Rattle.lf_semantics.specs.Environments.{IsLeast};
ghost use Rattle.lf_semantics.specs.Listing.{universe_of};
ghost use Rattle.lf_worlds.specs.views.Told.{rule_verdict};
ghost use Rattle.lf_open.specs.OpenList.{IsFirstOpen};
ghost use Rattle.lf_judge.specs.Judged.{Checked, files_of, finding_in, finding_told, has_unresolved, is_empty, rule_in, rule_told, verdicts_told};
ghost use Rattle.lf_judge.specs.Limits.{most_rules};
ghost use Rattle.lf_judge.specs.views.AtHand.{IsReady, TellsRuleAt, TellsRulesAt, rules_of_hand};
ghost use Rattle.lf_judge.specs.views.Checking.{TellsRules};
ghost use Rattle.lf_judge.specs.views.RulesFound.{AreFoundAt, IsFoundAt, NameFirsts};
ghost use Rattle.lf_judge.specs.views.NamePositions.{AreNamePositions};

use crate::Source;
use crate::at_hand::{AtHand, TELLING};
use crate::findings::findings_and_emptiness;
use crate::firsts::{first_at, firsts_of};
use crate::moving::taken_out;
use crate::name_positions::name_positions;
use crate::rule_found::{RuleFound, find_rules};
use crate::verdicts::rule_told;
use lf_ast::{Rule, RuleVerdicts};
use lf_base::{Gate, Memory, Seq};
use lf_board::map_pieces;
use lf_checks::{Checker, RecordedNames};
use lf_classes::Universe;
use lf_flow::Env;
use lf_open::OpenAt;
use lf_report::{Position, ReportedFinding, RuleReport};
use std::alloc::Global;
use std::thread::Threads;

/// What is told of the rules of files, by their universe and least environment; the verdicts on their labels where `labels` asks for them.
pub fn tell_rules<R: Threads + Sync, G: Gate + Sync>(
    rt: &R,
    alloc: Global,
    files: &Seq<Source>,
    rules: &Seq<Rule>,
    universe: &Universe,
    env: &Env,
    recorded: RecordedNames,
    labels: bool,
    workers: u32,
    gate: &G,
) -> Result<Seq<RuleReport>, Memory>
    requires universe { universe.now ≡ universe_of (rule_trees rules.now) }
    requires least { IsLeast universe.now (rule_trees rules.now) env.now }
    requires recorded { AreOf (rule_trees rules.now) recorded }
    requires sources { HaveSources (rule_trees rules.now) }
    requires stand { StandIn (files_of files.now) (rule_trees rules.now) }
    requires few { length rules.now ≤ most_rules }
    requires workers { (0 < workers) × (workers ≤ 64) }
    ensures { IfOk result (TellsRules (files_of files.now) (rule_trees rules.now) env.now labels) }
{
    let names = name_positions(alloc, files, rules)?;
    let names = names.as_slice();
    tell_named(
        rt, alloc, files, rules, names, universe, env, recorded, labels, workers, gate,
    )
}

/// The same, where the names of the rules stand at these positions.
fn tell_named<R: Threads + Sync, G: Gate + Sync>(
    rt: &R,
    alloc: Global,
    files: &Seq<Source>,
    rules: &Seq<Rule>,
    names: &[Position],
    universe: &Universe,
    env: &Env,
    recorded: RecordedNames,
    labels: bool,
    workers: u32,
    gate: &G,
) -> Result<Seq<RuleReport>, Memory>
    requires universe { universe.now ≡ universe_of (rule_trees rules.now) }
    requires least { IsLeast universe.now (rule_trees rules.now) env.now }
    requires recorded { AreOf (rule_trees rules.now) recorded }
    requires sources { HaveSources (rule_trees rules.now) }
    requires stand { StandIn (files_of files.now) (rule_trees rules.now) }
    requires few { length rules.now ≤ most_rules }
    requires names { AreNamePositions (files_of files.now) (rule_trees rules.now) names.now }
    requires workers { (0 < workers) × (workers ≤ 64) }
    ensures { IfOk result (TellsRules (files_of files.now) (rule_trees rules.now) env.now labels) }
{
    let checker = Checker::by(alloc, universe, env, rules, recorded)?;
    let hand = AtHand {
        files,
        rules,
        names,
        universe,
        env,
        checker: &checker,
    };
    tell_at_hand(rt, alloc, &hand, labels, workers, gate)
}

/// The same, with all at hand.
fn tell_at_hand<R: Threads + Sync, G: Gate + Sync>(
    rt: &R,
    alloc: Global,
    hand: &AtHand,
    labels: bool,
    workers: u32,
    gate: &G,
) -> Result<Seq<RuleReport>, Memory>
    requires ready { IsReady hand.now }
    requires workers { (0 < workers) × (workers ≤ 64) }
    ensures { IfOk result (TellsRulesAt hand.now labels) }
{
    if labels {
        return tell_with_labels(rt, alloc, hand, workers, gate);
    }
    each_without_labels(rt, alloc, hand, workers, gate)
}

/// What is told of rules with the verdicts on their labels. Workers find what is known of each rule; what stands open first is named afterwards, for the rules that need it.
fn tell_with_labels<R: Threads + Sync, G: Gate + Sync>(
    rt: &R,
    alloc: Global,
    hand: &AtHand,
    workers: u32,
    gate: &G,
) -> Result<Seq<RuleReport>, Memory>
    requires ready { IsReady hand.now }
    requires workers { (0 < workers) × (workers ≤ 64) }
    ensures { IfOk result (TellsRulesAt hand.now true) }
{
    let found = find_rules(rt, alloc, hand, workers, gate)?;
    let firsts = firsts_of(alloc, hand.rules, &found)?;
    reports_of(alloc, hand, found, firsts.as_slice())
}

/// What is told of rules, by what was found of them and by what stands open first. What was found isn't copied.
fn reports_of(
    alloc: Global,
    hand: &AtHand,
    found: Seq<RuleFound>,
    firsts: &[Option<OpenAt>],
) -> Result<Seq<RuleReport>, Memory>
    requires few { length hand.now.rules.now ≤ most_rules }
    requires found { AreFoundAt hand.now found }
    requires firsts { NameFirsts (rules_of_hand hand.now) found firsts.now }
    ensures { IfOk result (TellsRulesAt hand.now true) }
{
    let mut taken = taken_out(alloc, found)?;
    let mut told = Seq::with_capacity(alloc, taken.len())?;
    while let Some(next) = taken.pop() {
        let number = told.len();
        let first = first_at(firsts, number);
        let report = rule_with_labels(alloc, hand, next, first, number as u32)?;
        told.push(report)?;
    }
    Ok(told)
}

/// What is told of the rule with this number, by what was found of it and by the first construct that stands open for it, where a label of it stays unresolved.
fn rule_with_labels(
    alloc: Global,
    hand: &AtHand,
    found: RuleFound,
    first: Option<OpenAt>,
    number: u32,
) -> Result<RuleReport, Memory>
    requires rule { number < length hand.now.rules.now }
    requires found { IsFoundAt hand.now number found }
    requires first { has_unresolved (rule_verdict found.known) ≡ true → IsFirstOpen (rules_of_hand hand.now) number first }
    ensures { IfOk result (TellsRuleAt hand.now true number) }
{
    let RuleFound { known, findings } = found;
    let rule = hand.rules.get(number as usize);
    let verdicts = rule_told(alloc, known, first, number, rule.expr_span)?;
    let empty = are_empty(&verdicts);
    report_of(rule, Some(verdicts), empty, findings)
}

/// Whether the verdicts call the rule empty.
fn are_empty(verdicts: &RuleVerdicts) -> bool
    ensures { (number : ℕ) (c : Checked) → verdicts.now ≡ verdicts_told c.first number c.rule c.verdict → result ≡ is_empty c.verdict }
{
    match verdicts {
        RuleVerdicts::Empty => true,
        RuleVerdicts::Labels { .. } => false,
    }
}

/// Each rule without the verdicts on its labels.
fn each_without_labels<R: Threads + Sync, G: Gate + Sync>(
    rt: &R,
    alloc: Global,
    hand: &AtHand,
    workers: u32,
    gate: &G,
) -> Result<Seq<RuleReport>, Memory>
    requires ready { IsReady hand.now }
    requires workers { (0 < workers) × (workers ≤ 64) }
    ensures { IfOk result (TellsRulesAt hand.now false) }
{
    let tell_one = |number: u32| -> Result<RuleReport, Memory>
        requires ready { IsReady hand.now }
        requires rule { number < length hand.now.rules.now }
        ensures { IfOk result (TellsRuleAt hand.entry.now false number) }
    { rule_without_labels(alloc, hand, number) };
    map_pieces(
        rt,
        alloc,
        hand.rules.len() as u32,
        workers,
        gate,
        TELLING,
        &tell_one,
    )
}

/// What is told of the rule with this number, without the verdicts on its labels.
fn rule_without_labels(alloc: Global, hand: &AtHand, number: u32) -> Result<RuleReport, Memory>
    requires ready { IsReady hand.now }
    requires rule { number < length hand.now.rules.now }
    ensures { IfOk result (TellsRuleAt hand.now false number) }
{
    let rule = hand.rules.get(number as usize);
    let (findings, empty) = findings_and_emptiness(alloc, hand, number)?;
    report_of(rule, None, empty, findings)
}

/// What is told of a rule, put together.
fn report_of(
    rule: &Rule,
    verdicts: Option<RuleVerdicts>,
    empty: bool,
    findings: Seq<ReportedFinding>,
) -> Result<RuleReport, Memory>
    ensures { (labels : Bool) (number : ℕ) (c : Checked) → c.rule ≡ rule_tree rule.now → verdicts ≡ (if labels then Some (verdicts_told c.first number c.rule c.verdict) else None) → empty ≡ is_empty c.verdict → map finding_in findings ≡ map finding_told c.found → IfOk result (λ told. rule_in told ≡ rule_told labels number c) }
{
    let name = rule.name.copy()?;
    Ok(RuleReport {
        file: rule.file,
        alert: rule.alert,
        name,
        name_span: rule.name_span,
        verdicts,
        empty,
        findings,
    })
}
