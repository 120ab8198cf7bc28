//! What workers read of rules whose labels are asked about, before any trial: the rows of each, and what the checks find by them.
ghost use Rattle.std.specs.Prelude.{◌≡◌, ◌≤◌, ◌<◌, length, map, IfOk};
ghost use Rattle.lf_worlds.specs.views.Readings.{AreReadingsBy};
ghost use Rattle.lf_judge.specs.views.AtHand.{IsReady, rules_of_hand};
ghost use Rattle.lf_judge.specs.views.RulesFound.{AreReadAt, IsReadAt};

use crate::at_hand::{AtHand, TELLING};
use crate::findings::findings_by;
use lf_base::{Memory, OpenGate, Seq};
use lf_board::map_pieces;
use lf_built::RuleRow;
use lf_checks::RecordedNames;
use lf_forks::Forks;
use lf_report::ReportedFinding;
use std::alloc::Global;
use std::thread::Threads;

/// What is read of a rule.
#[derive(Drop)]
pub struct RuleRead {
    /// What is told of the parts of its expression, and its rows.
    pub row: RuleRow,
    /// What the checks find.
    pub findings: Seq<ReportedFinding>,
}

/// What is read of rules, each in a list of its own.
#[derive(Drop)]
pub struct RulesRead {
    pub rows: Seq<RuleRow>,
    pub findings: Seq<Seq<ReportedFinding>>,
}

/// What is read of each rule, by the workers. No gate is passed: what is known of the rules begins behind it.
pub fn read_rules<R: Threads + Sync>(
    rt: &R,
    alloc: Global,
    hand: &AtHand,
    recorded: &RecordedNames,
    forks: &Forks,
    workers: u32,
) -> Result<Seq<RuleRead>, Memory>
    requires ready { IsReady hand.now }
    requires readings { AreReadingsBy (rules_of_hand hand.now) recorded.now.sources recorded.now.graph forks.now }
    requires workers { (0 < workers) × (workers ≤ 64) }
    ensures { IfOk result (AreReadAt hand.now forks.now) }
{
    let read_one = |number: u32| -> Result<RuleRead, Memory>
        requires ready { IsReady hand.now }
        requires readings { AreReadingsBy (rules_of_hand hand.now) recorded.now.sources recorded.now.graph forks.now }
        requires rule { number < length hand.now.rules.now }
        ensures { IfOk result (IsReadAt hand.entry.now forks.entry.now number) }
    { read_rule(alloc, hand, recorded, forks, number) };
    map_pieces(
        rt,
        alloc,
        hand.rules.len() as u32,
        workers,
        &OpenGate,
        TELLING,
        &read_one,
    )
}

/// What is read of the rule with this number. The rows of its parts serve both.
fn read_rule(
    alloc: Global,
    hand: &AtHand,
    recorded: &RecordedNames,
    forks: &Forks,
    number: u32,
) -> Result<RuleRead, Memory>
    requires ready { IsReady hand.now }
    requires readings { AreReadingsBy (rules_of_hand hand.now) recorded.now.sources recorded.now.graph forks.now }
    requires rule { number < length hand.now.rules.now }
    ensures { IfOk result (IsReadAt hand.now forks.now number) }
{
    let rows = hand.checker.part_rows(alloc, number)?;
    let row = RuleRow::by(
        alloc,
        hand.universe,
        hand.env,
        hand.rules,
        recorded.sources(),
        forks,
        number as usize,
        rows.as_slice(),
    )?;
    let findings = findings_by(alloc, hand, number, rows)?;
    Ok(RuleRead { row, findings })
}

/// What was read of rules, apart.
pub fn apart(alloc: Global, mut read: Seq<RuleRead>) -> Result<RulesRead, Memory>
    ensures rows { IfOk result (λ apart. apart.rows ≡ map (λ (rule : RuleRead). rule.row) read) }
    ensures findings { IfOk result (λ apart. apart.findings ≡ map (λ (rule : RuleRead). rule.findings) read) }
{
    let mut rows = Vec::with_capacity(alloc, read.len())?;
    let mut findings = Vec::with_capacity(alloc, read.len())?;
    while let Some(rule) = read.pop() {
        rows.push(rule.row)?;
        findings.push(rule.findings)?;
    }
    rows.reverse();
    findings.reverse();
    Ok(RulesRead {
        rows: Seq::from_vec(rows),
        findings: Seq::from_vec(findings),
    })
}
