//! The making of a report.
ghost use Rattle.std.specs.Prelude.{◌≡◌, ◌≤◌, ◌<◌, ◌+◌, ◌^◌, ℕ, List, length, IfErr, IfOk, OnOk};
ghost use Rattle.lf_judge.specs.Judged.{files_of};
ghost use Rattle.lf_report.specs.Numbers.{NameRules, StandInFiles};
ghost use Rattle.lf_report.specs.declared.report.Report.{Report};
ghost use Rattle.lf_words.specs.Grammar.{Asks};
ghost use Rattle.lf_lint.specs.Asked.{names_of, tells_labels, workers_of, written};
ghost use Rattle.lf_lint.specs.Ends.{end_of};
ghost use Rattle.lf_lint.specs.Read.{AreShort, most_files};
ghost use Rattle.lf_lint.specs.views.Making.{IsMade, IsMadeOf, IsWhyUnjudged, IsWhyUnreported};

use crate::Status;
use crate::output::{Output, render, with_labels, worker_count};
use crate::sources::sources_of;
use crate::unreported::Unreported;
use lf_base::{Files, Gate, Memory, Seq, Text};
use lf_judge::{Source, judge};
use lf_report::Report;
use lf_words::Options;
use std::alloc::Global;
use std::thread::Threads;

/// A report as it is written, and how it ends a run once it is.
#[derive(Drop)]
pub struct FinishedReport {
    pub text: Text,
    pub status: Status,
}

/// Makes the report that these options ask for. Nothing is written.
pub fn make<R: Threads + Sync, F: Files, G: Gate + Sync>(
    rt: &R,
    alloc: Global,
    options: &Options,
    files: &mut F,
    gate: &G,
) -> Result<FinishedReport, Unreported>
    requires calm { F.faults files.old ≡ 0 }
    requires opens { F.opens files.old ≤ 2 ^ 31 }
    requires asked { (words : List (List ℕ)) × Asks words options.now }

    ensures made { IfOk result (IsMade (F.held files.old) options.now) }
    ensures why { IfErr result (λ why. (opened : ℕ) × (F.opens files.new ≡ F.opens files.old + opened) × IsWhyUnreported (F.held files.old) (F.left files.new) options.now (F.faults files.old) (F.faults files.new) opened why) }
    ensures opened { OnOk result (F.opens files.new ≡ F.opens files.old + length (names_of options.now)) }
    ensures calm { OnOk result (F.faults files.new ≡ F.faults files.old) }
    ensures kept { (name : List ℕ) → F.held files.new name ≡ F.held files.old name }
{
    let sources = sources_of(alloc, options, files)?;
    make_of(rt, alloc, options, &sources, gate)
}

/// Makes the report on these files.
fn make_of<R: Threads + Sync, G: Gate + Sync>(
    rt: &R,
    alloc: Global,
    options: &Options,
    sources: &Seq<Source>,
    gate: &G,
) -> Result<FinishedReport, Unreported>
    requires short { AreShort (files_of sources.now) }
    requires few { length sources.now ≤ most_files }
    requires workers { (0 < workers_of options.now) × (workers_of options.now ≤ 64) }
    ensures made { IfOk result (IsMadeOf options.now (files_of sources.now)) }
    ensures why { IfErr result (IsWhyUnjudged (tells_labels options.now) (files_of sources.now)) }
{
    let labels = with_labels(options);
    let report = judge(rt, alloc, sources, labels, worker_count(options), gate)?;
    let made = FinishedReport::of(alloc, Output::of(options), &report)?;
    Ok(made)
}

impl FinishedReport {
    /// The report in this form.
    fn of(alloc: Global, output: Output, report: &Report) -> Result<FinishedReport, Memory>
        requires files { StandInFiles report.now }
        requires rules { NameRules report.now }
        ensures text { IfOk result (λ made. made.text ≡ written output report.now) }
        ensures status { IfOk result (λ made. made.status ≡ end_of report.now) }
    {
        let text = render(alloc, output, report)?;
        let status = ending(report);
        Ok(FinishedReport { text, status })
    }
}

/// How a report ends a run once it is written.
fn ending(report: &Report) -> Status
    ensures { result ≡ end_of report.now }
{
    if report.refused() > 0 {
        return Status::Refused;
    }
    if report.problems() > 0 {
        return Status::Problems;
    }
    Status::Clean
}
