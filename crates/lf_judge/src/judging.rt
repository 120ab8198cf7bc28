//! The report on files.
ghost use Rattle.std.specs.Prelude.{◌≡◌, ◌≢◌, ◌≤◌, ◌<◌, ◌^◌, ℕ, Bool, Err, List, Some, length, map, slice_get, slice_index_or, IfOk, IfErr};
ghost use Rattle.lf_ast.specs.Rules.{rule_trees};
ghost use Rattle.lf_checks.specs.Files.{File};
ghost use Rattle.lf_checks.specs.views.Recorded.{AreOf};
ghost use Rattle.lf_report.specs.declared.report.Report.{Report};
ghost use Rattle.lf_semantics.specs.Environments.{IsLeast};
ghost use Rattle.lf_semantics.specs.Listing.{universe_of};
ghost use Rattle.lf_judge.specs.Allowance.{AreAllowed};
ghost use Rattle.lf_judge.specs.Founds.{Content};
ghost use Rattle.lf_judge.specs.Judged.{IsReportOn, TellTheSame, files_of, files_told, labels_of};
ghost use Rattle.lf_judge.specs.Limits.{EndsIn, AreWithinLimits, most_rules};
ghost use Rattle.lf_judge.specs.declared.source.Source.{Source};
ghost use Rattle.lf_judge.specs.views.Accepting.{IsOfFiles, refusal_in};
ghost use Rattle.lf_judge.specs.views.Checking.{IsPutTogether};

use crate::accepting::{Accepted, accept_all};
use crate::measuring::{Measured, measure_with_names};
use crate::telling::tell_rules;
use crate::{JudgeEnd, Source};
use lf_base::{Gate, Memory, Seq, Text};
use lf_checks::RecordedNames;
use lf_classes::Universe;
use lf_flow::{Env, match_patterns};
use lf_report::{FileReport, Refused, Report, RuleReport};
use lf_rounds::solve_shared_by;
use std::alloc::Global;
use std::thread::Threads;

/// The report on files, with the verdicts on labels where `labels` asks for them. It is the same for any number of workers, who accept the files, compute the rows of
/// recorded names, and tell of the rules.
///
/// Files whose rules pass a limit have none. One limit is on the verdicts that are asked for, and the others don't depend on them.
/// Nor have those whose patterns count more than the patterns of a run may: memory is wanting for it.
pub fn judge<R: Threads + Sync, G: Gate + Sync>(
    rt: &R,
    alloc: Global,
    files: &Seq<Source>,
    labels: bool,
    workers: u32,
    gate: &G,
) -> Result<Report, JudgeEnd>
    requires room { (k : ℕ) (file : Source) → slice_get files.now k ≡ Some file → length file.bytes ≤ 2 ^ 31 }
    requires few { length files.now < 2 ^ 32 }
    requires workers { (0 < workers) × (workers ≤ 64) }
    ensures report { IfOk result (IsReportOn (files_of files.now) labels) }
    ensures fits { IfOk result (λ _. AreWithinLimits labels (files_of files.now)) }
    ensures refused { IfErr result (EndsIn labels (files_of files.now)) }
    // Where the patterns of the files count more than those of a run may, memory is wanting.
    ensures allowed { result ≢ Err JudgeEnd.Memory → AreAllowed (files_of files.now) }
{
    let accepted = accept_all(rt, alloc, files, workers, gate)?;
    let report = judge_accepted(rt, alloc, files, &accepted, labels, workers, gate)?;
    Ok(report)
}

/// The report on files in which this stands.
fn judge_accepted<R: Threads + Sync, G: Gate + Sync>(
    rt: &R,
    alloc: Global,
    files: &Seq<Source>,
    accepted: &Accepted,
    labels: bool,
    workers: u32,
    gate: &G,
) -> Result<Report, JudgeEnd>
    requires accepted { IsOfFiles (files_of files.now) accepted.now }
    requires workers { (0 < workers) × (workers ≤ 64) }
    ensures report { IfOk result (IsReportOn (files_of files.now) labels) }
    ensures fits { IfOk result (λ _. AreWithinLimits labels (files_of files.now)) }
    ensures refused { IfErr result (EndsIn labels (files_of files.now)) }
{
    let measured = measure_with_names(alloc, &accepted.rules, labels)?;
    let Measured {
        mut universe,
        recorded,
    } = measured;
    let report = judge_within(
        rt,
        alloc,
        files,
        accepted,
        &mut universe,
        recorded,
        labels,
        workers,
        gate,
    )?;
    Ok(report)
}

/// The same, where the rules pass no limit and have this universe.
fn judge_within<R: Threads + Sync, G: Gate + Sync>(
    rt: &R,
    alloc: Global,
    files: &Seq<Source>,
    accepted: &Accepted,
    universe: &mut Universe,
    recorded: RecordedNames,
    labels: bool,
    workers: u32,
    gate: &G,
) -> Result<Report, Memory>
    requires accepted { IsOfFiles (files_of files.now) accepted.now }
    requires universe { universe.old ≡ universe_of (rule_trees accepted.now.rules) }
    requires recorded { AreOf (rule_trees accepted.now.rules) recorded }
    requires few { length accepted.now.rules ≤ most_rules }
    requires workers { (0 < workers) × (workers ≤ 64) }
    ensures { IfOk result (IsReportOn (files_of files.now) labels) }
{
    match_patterns(alloc, universe, &accepted.rules)?;
    judge_prepared(
        rt, alloc, files, accepted, universe, recorded, labels, workers, gate,
    )
}

/// The same, with the environment still to be solved.
fn judge_prepared<R: Threads + Sync, G: Gate + Sync>(
    rt: &R,
    alloc: Global,
    files: &Seq<Source>,
    accepted: &Accepted,
    universe: &Universe,
    recorded: RecordedNames,
    labels: bool,
    workers: u32,
    gate: &G,
) -> Result<Report, Memory>
    requires accepted { IsOfFiles (files_of files.now) accepted.now }
    requires universe { universe.now ≡ universe_of (rule_trees accepted.now.rules) }
    requires recorded { AreOf (rule_trees accepted.now.rules) recorded }
    requires few { length accepted.now.rules ≤ most_rules }
    requires workers { (0 < workers) × (workers ≤ 64) }
    ensures { IfOk result (IsReportOn (files_of files.now) labels) }
{
    let sources = recorded.sources();
    let env = solve_shared_by(rt, alloc, universe, &accepted.rules, sources, workers, gate)?;
    let report = judge_solved(
        rt, alloc, files, accepted, universe, &env, recorded, labels, workers, gate,
    )?;
    Ok(report)
}

/// The same, by the least environment.
fn judge_solved<R: Threads + Sync, G: Gate + Sync>(
    rt: &R,
    alloc: Global,
    files: &Seq<Source>,
    accepted: &Accepted,
    universe: &Universe,
    env: &Env,
    recorded: RecordedNames,
    labels: bool,
    workers: u32,
    gate: &G,
) -> Result<Report, Memory>
    requires accepted { IsOfFiles (files_of files.now) accepted.now }
    requires universe { universe.now ≡ universe_of (rule_trees accepted.now.rules) }
    requires recorded { AreOf (rule_trees accepted.now.rules) recorded }
    requires few { length accepted.now.rules ≤ most_rules }
    requires least { IsLeast universe.now (rule_trees accepted.now.rules) env.now }
    requires workers { (0 < workers) × (workers ≤ 64) }
    ensures { IfOk result (IsReportOn (files_of files.now) labels) }
{
    let rules = tell_rules(
        rt,
        alloc,
        files,
        &accepted.rules,
        universe,
        env,
        recorded,
        labels,
        workers,
        gate,
    )?;
    report_of(alloc, files, accepted, universe, rules, labels)
}

/// The report, put together of what is told of the rules and of what stands in the files.
fn report_of(
    alloc: Global,
    files: &Seq<Source>,
    accepted: &Accepted,
    universe: &Universe,
    rules: Seq<RuleReport>,
    labels: bool,
) -> Result<Report, Memory>
    requires { length accepted.now.refusals ≡ length files.now }
    ensures { (contents : List Content) → accepted.now.refusals ≡ map refusal_in contents → IfOk result (IsPutTogether (files_of files.now) labels universe.now contents rules) }
{
    let files = told_files(alloc, files, accepted.refusals.as_slice())?;
    let universe = told_labels(alloc, universe)?;
    Ok(Report {
        labels,
        files,
        rules,
        universe,
    })
}

/// What is told of each file: its name and its bytes, and why it is refused, where it is.
fn told_files(
    alloc: Global,
    files: &Seq<Source>,
    refusals: &[Option<Refused>],
) -> Result<Seq<FileReport>, Memory>
    requires { length refusals.now ≡ length files.now }
    ensures { (contents : List Content) → refusals.now ≡ map refusal_in contents → IfOk result (λ told. told ≡ files_told (files_of files.now) contents) }
{
    let mut told = Seq::new(alloc);
    for k in 0..files.len() {
        let file = told_file(files.get(k), refusal_at(refusals, k))?;
        told.push(file)?;
    }
    Ok(told)
}

/// Why the file with this number is refused, if it is.
fn refusal_at(refusals: &[Option<Refused>], number: usize) -> Option<Refused>
    requires { number < length refusals.now }
    ensures { result ≡ slice_index_or refusals.now number result }
{
    refusals[number]
}

/// What is told of a file.
fn told_file(file: &Source, refusal: Option<Refused>) -> Result<FileReport, Memory>
    ensures { IfOk result (λ told. told ≡ record { name = file.now.name; source = file.now.bytes; refusal = refusal }) }
{
    let name = file.name.copy()?;
    let source = file.bytes.copy()?;
    Ok(FileReport {
        name,
        source,
        refusal,
    })
}

/// The labels of a universe, in their order. `*` is the last.
fn told_labels(alloc: Global, universe: &Universe) -> Result<Seq<Text>, Memory>
    ensures { IfOk result (λ names. names ≡ labels_of universe.now) }
{
    let mut names = Seq::new(alloc);
    for label in 0..universe.labels() {
        names.push(universe.name(label).copy()?)?;
    }
    Ok(names)
}

/// The reports on the same files tell the same.
pub fn one_report()
    ensures { (files : List File) (labels : Bool) (a b : Report) → IsReportOn files labels a → IsReportOn files labels b → TellTheSame a b }
{}
