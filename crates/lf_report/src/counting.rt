//! How many of what a report has.
ghost use Rattle.std.specs.Prelude.{◌≡◌, ◌↔◌, ◌<◌, ◌≤◌, ◌+◌, ◌-◌, ◌^◌, cond, min, count_by, IfOk};
ghost use Rattle.lf_report.specs.Counts.{is_empty, is_grave, is_guaranteed, is_impossible, is_note, is_possible, is_problem, is_unresolved, problem_count, refused_count};
ghost use Rattle.lf_report.specs.Numbers.{labels_of};
ghost use Rattle.lf_report.specs.Text.{severity_name};
ghost use Rattle.lf_report.specs.views.Totals.{AreTotals, IsWith, is_of};

use crate::{Report, ReportedFinding, RuleReport, Severity};
use lf_ast::{RuleVerdicts, Verdict};
use lf_base::Memory;
use lf_base::counts::sum;

impl Report {
    /// How many files are refused.
    pub fn refused(&self) -> usize
        ensures { result ≡ refused_count self.now }
    {
        self.files
            .as_slice()
            .iter()
            .filter(|file| file.refusal.is_some())
            .count()
    }

    /// How many findings are problems. Where they are more than a `usize` counts, the greatest `usize`.
    pub fn problems(&self) -> usize
        ensures value { result ≡ min (problem_count self.now) (2 ^ 64 - 1) }
        ensures exact { problem_count self.now < 2 ^ 64 → result ≡ problem_count self.now }
        ensures none { (result ≡ 0) ↔ (problem_count self.now ≡ 0) }
    {
        let mut problems: usize = 0;
        for rule in self.rules.as_slice() {
            problems = problems.saturating_add(problems_in(rule.findings.as_slice()));
        }
        problems
    }
}

impl Severity {
    /// Whether it is that of a problem.
    pub fn is_problem(self) -> bool
        ensures { result ≡ is_grave self }
    {
        match self {
            Severity::Problem => true,
            Severity::Note => false,
        }
    }

    /// The severity in words.
    pub fn name(self) -> &'static str
        ensures { result.now ≡ severity_name self }
    {
        match self {
            Severity::Problem => "problem",
            Severity::Note => "note",
        }
    }
}

/// The totals of the findings of rules and of the verdicts on them.
#[derive(Clone, Copy, PartialEq, Eq, Debug)]
pub struct Totals {
    pub problems: usize,
    pub notes: usize,
    pub guaranteed: usize,
    pub impossible: usize,
    pub possible: usize,
    pub unresolved: usize,
    pub empty: usize,
}

impl Totals {
    /// The totals of rules. `Memory` where one is more than a `usize` counts, which is more than any memory holds.
    pub fn of(rules: &[RuleReport]) -> Result<Totals, Memory>
        ensures { IfOk result (AreTotals rules.now) }
    {
        let mut totals = Totals::none();
        for rule in rules {
            totals = totals.with(rule)?;
        }
        Ok(totals)
    }

    /// The totals of no rule.
    fn none() -> Totals
        ensures { result ≡ record { problems = 0; notes = 0; guaranteed = 0; impossible = 0; possible = 0; unresolved = 0; empty = 0 } }
    {
        Totals {
            problems: 0,
            notes: 0,
            guaranteed: 0,
            impossible: 0,
            possible: 0,
            unresolved: 0,
            empty: 0,
        }
    }

    /// The totals with those of one more rule.
    fn with(self, rule: &RuleReport) -> Result<Totals, Memory>
        ensures { IfOk result (IsWith self rule.now) }
    {
        let findings = rule.findings.as_slice();
        let verdicts = verdicts_on(rule);
        Ok(Totals {
            problems: sum(self.problems, problems_in(findings))?,
            notes: sum(self.notes, notes_in(findings))?,
            guaranteed: sum(
                self.guaranteed,
                verdicts_in(verdicts, VerdictKind::Guaranteed),
            )?,
            impossible: sum(
                self.impossible,
                verdicts_in(verdicts, VerdictKind::Impossible),
            )?,
            possible: sum(self.possible, verdicts_in(verdicts, VerdictKind::Possible))?,
            unresolved: sum(
                self.unresolved,
                verdicts_in(verdicts, VerdictKind::Unresolved),
            )?,
            empty: sum(self.empty, empty_in(rule))?,
        })
    }
}

/// How many findings are problems.
fn problems_in(findings: &[ReportedFinding]) -> usize
    ensures { result ≡ count_by is_problem findings.now }
{
    findings
        .iter()
        .filter(|finding| finding.severity.is_problem())
        .count()
}

/// How many findings are notes.
fn notes_in(findings: &[ReportedFinding]) -> usize
    ensures { result ≡ count_by is_note findings.now }
{
    findings
        .iter()
        .filter(|finding| !finding.severity.is_problem())
        .count()
}

/// The verdicts on the labels of a rule. Of an empty one there are none.
fn verdicts_on(rule: &RuleReport) -> &[Verdict]
    ensures { result.now ≡ labels_of rule.entry.now.verdicts }
{
    match &rule.verdicts {
        Some(RuleVerdicts::Labels { of }) => of.as_slice(),
        Some(RuleVerdicts::Empty) => &[],
        None => &[],
    }
}

/// What a verdict says, without what shows it.
#[derive(Clone, Copy, PartialEq, Eq, Debug)]
pub enum VerdictKind {
    Guaranteed,
    Impossible,
    Possible,
    Unresolved,
}

/// How many verdicts are of a kind.
fn verdicts_in(verdicts: &[Verdict], kind: VerdictKind) -> usize
    ensures { result ≡ count_by (is_of kind) verdicts.now }
{
    let mut count = 0;
    for verdict in verdicts {
        count += one_if(is_of(verdict, kind));
    }
    count
}

/// One where it holds, else none.
fn one_if(holds: bool) -> usize
    ensures count { result ≡ cond holds 1 0 }
    ensures most { result ≤ 1 }
{
    if holds { 1 } else { 0 }
}

/// Whether a verdict is of a kind.
fn is_of(verdict: &Verdict, kind: VerdictKind) -> bool
    ensures { result ≡ is_of kind verdict.now }
{
    match kind {
        VerdictKind::Guaranteed => is_guaranteed(verdict),
        VerdictKind::Impossible => is_impossible(verdict),
        VerdictKind::Possible => is_possible(verdict),
        VerdictKind::Unresolved => is_unresolved(verdict),
    }
}

/// How many rules are empty, of this one.
fn empty_in(rule: &RuleReport) -> usize
    ensures { result ≡ cond (is_empty rule.now.verdicts) 1 0 }
{
    match &rule.verdicts {
        Some(RuleVerdicts::Empty) => 1,
        _ => 0,
    }
}

/// Whether the label is on every sample.
#[tactic(auto, unfolding(crate::specs::Counts::is_guaranteed))]
fn is_guaranteed(verdict: &Verdict) -> bool
    ensures { result ≡ is_guaranteed verdict.now }
{
    match verdict {
        Verdict::Guaranteed => true,
        Verdict::Impossible | Verdict::Possible { .. } | Verdict::Unresolved { .. } => false,
    }
}

/// Whether the label is on no sample.
#[tactic(auto, unfolding(crate::specs::Counts::is_impossible))]
fn is_impossible(verdict: &Verdict) -> bool
    ensures { result ≡ is_impossible verdict.now }
{
    match verdict {
        Verdict::Impossible => true,
        Verdict::Guaranteed | Verdict::Possible { .. } | Verdict::Unresolved { .. } => false,
    }
}

/// Whether worlds show a sample with the label and one without it.
#[tactic(auto, unfolding(crate::specs::Counts::is_possible))]
fn is_possible(verdict: &Verdict) -> bool
    ensures { result ≡ is_possible verdict.now }
{
    match verdict {
        Verdict::Possible { .. } => true,
        Verdict::Guaranteed | Verdict::Impossible | Verdict::Unresolved { .. } => false,
    }
}

/// Whether something stands in the way of an answer.
#[tactic(auto, unfolding(crate::specs::Counts::is_unresolved))]
fn is_unresolved(verdict: &Verdict) -> bool
    ensures { result ≡ is_unresolved verdict.now }
{
    match verdict {
        Verdict::Unresolved { .. } => true,
        Verdict::Guaranteed | Verdict::Impossible | Verdict::Possible { .. } => false,
    }
}
