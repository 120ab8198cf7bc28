//! What workers find of rules whose labels are asked about, each of a rule.
ghost use Rattle.std.specs.Prelude.{◌≡◌, ◌≤◌, ◌<◌, length, map, IfOk};
ghost use Rattle.lf_built.specs.views.RuleRows.{AreRowsOf};
ghost use Rattle.lf_worlds.specs.views.Readings.{AreReadingsBy};
ghost use Rattle.lf_judge.specs.views.AtHand.{AreTrialsAt, IsReady, rules_of_hand};
ghost use Rattle.lf_judge.specs.views.RulesFound.{AreFoundAt, AreKnownAt, IsKnownAt};

use crate::at_hand::{AtHand, TELLING};
use crate::moving::taken_out;
use crate::rule_read::{RulesRead, apart, read_rules};
use lf_base::{Gate, Memory, Seq};
use lf_board::map_pieces;
use lf_built::RuleRow;
use lf_checks::RecordedNames;
use lf_forks::Forks;
use lf_report::ReportedFinding;
use lf_worlds::{RuleKnowledge, Trials};
use std::alloc::Global;
use std::thread::Threads;

/// What is found of a rule.
#[derive(Drop)]
pub struct RuleFound {
    /// What is known of its labels.
    pub known: RuleKnowledge,
    /// What the checks find.
    pub findings: Seq<ReportedFinding>,
}

/// What is found of each rule, in their order.
pub fn find_rules<R: Threads + Sync, G: Gate + Sync>(
    rt: &R,
    alloc: Global,
    hand: &AtHand,
    workers: u32,
    gate: &G,
) -> Result<Seq<RuleFound>, Memory>
    requires ready { IsReady hand.now }
    requires workers { (0 < workers) × (workers ≤ 64) }
    ensures { IfOk result (AreFoundAt hand.now) }
{
    let recorded = hand.checker.recorded();
    let forks = Forks::of(alloc, hand.rules, recorded.sources())?;
    let read = read_rules(rt, alloc, hand, recorded, &forks, workers)?;
    let RulesRead { rows, findings } = apart(alloc, read)?;
    let known = know_read(rt, alloc, hand, recorded, &forks, rows, workers, gate)?;
    let found = together(alloc, known, findings)?;
    Ok(found)
}

/// What is known of each rule, with what the rules read, and with the rows of each.
fn know_read<R: Threads + Sync, G: Gate + Sync>(
    rt: &R,
    alloc: Global,
    hand: &AtHand,
    recorded: &RecordedNames,
    forks: &Forks,
    rows: Seq<RuleRow>,
    workers: u32,
    gate: &G,
) -> Result<Seq<RuleKnowledge>, Memory>
    requires ready { IsReady hand.now }
    requires readings { AreReadingsBy (rules_of_hand hand.now) recorded.now.sources recorded.now.graph forks.now }
    requires rows { AreRowsOf hand.now.universe.now hand.now.env.now forks.now (rules_of_hand hand.now) rows }
    requires workers { (0 < workers) × (workers ≤ 64) }
    ensures { IfOk result (AreKnownAt hand.now) }
{
    let trials = Trials::by(
        alloc,
        hand.universe,
        hand.env,
        hand.rules,
        recorded.sources(),
        recorded.graph(),
        forks,
        rows,
    )?;
    let known = know_each(rt, alloc, hand, &trials, workers, gate)?;
    Ok(known)
}

/// The same, by trials of the rules. The worlds that they show are kept in what is known.
fn know_each<R: Threads + Sync, G: Gate + Sync>(
    rt: &R,
    alloc: Global,
    hand: &AtHand,
    trials: &Trials,
    workers: u32,
    gate: &G,
) -> Result<Seq<RuleKnowledge>, Memory>
    requires ready { IsReady hand.now }
    requires trials { AreTrialsAt hand.now trials.now }
    requires workers { (0 < workers) × (workers ≤ 64) }
    ensures { IfOk result (AreKnownAt hand.now) }
{
    let know_one = |number: u32| -> Result<RuleKnowledge, Memory>
        requires ready { IsReady hand.now }
        requires trials { AreTrialsAt hand.now trials.now }
        requires rule { number < length hand.now.rules.now }
        ensures { IfOk result (IsKnownAt hand.entry.now number) }
    { know_rule(alloc, hand, trials, number) };
    map_pieces(
        rt,
        alloc,
        hand.rules.len() as u32,
        workers,
        gate,
        TELLING,
        &know_one,
    )
}

/// What is known of the rule with this number.
fn know_rule(
    alloc: Global,
    hand: &AtHand,
    trials: &Trials,
    number: u32,
) -> Result<RuleKnowledge, Memory>
    requires trials { AreTrialsAt hand.now trials.now }
    requires rule { number < length hand.now.rules.now }
    ensures { IfOk result (IsKnownAt hand.now number) }
{
    let known = trials.rule(alloc, number)?;
    Ok(known)
}

/// What is known of rules and what the checks find of them, rule by rule.
fn together(
    alloc: Global,
    known: Seq<RuleKnowledge>,
    findings: Seq<Seq<ReportedFinding>>,
) -> Result<Seq<RuleFound>, Memory>
    requires count { length findings ≡ length known }
    ensures known { IfOk result (λ found. map (λ (rule : RuleFound). rule.known) found ≡ known) }
    ensures findings { IfOk result (λ found. map (λ (rule : RuleFound). rule.findings) found ≡ findings) }
{
    let mut taken = taken_out(alloc, known)?;
    let mut waiting = taken_out(alloc, findings)?;
    let mut found = Seq::with_capacity(alloc, taken.len())?;
    while let Some(next) = taken.pop() {
        let rule = RuleFound {
            known: next,
            findings: waiting.pop().unwrap(),
        };
        found.push(rule)?;
    }
    Ok(found)
}
