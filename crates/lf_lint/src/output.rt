//! How a report is written.
ghost use Rattle.std.specs.Prelude.{◌≡◌, IfOk};
ghost use Rattle.lf_gen.specs.Lines.{last_lines};
ghost use Rattle.lf_report.specs.Numbers.{NameRules, StandInFiles};
ghost use Rattle.lf_report.specs.Text.{report_text};
ghost use Rattle.lf_lint.specs.Asked.{output_of, tells_labels, workers_of, written};

use lf_base::{Memory, Text};
use lf_gen::last_two_lines;
use lf_report::{Report, json_of, text_of};
use lf_words::Options;
use std::alloc::Global;

/// How many workers make the report on a generated file.
const WORKERS_OF_GENERATED: u32 = 4;

/// How a report is written.
#[derive(Clone, Copy, PartialEq, Eq, Debug)]
pub enum Output {
    /// Line by line.
    Text,
    /// As one object.
    Json,
    /// The last two lines of the text, which hold the totals.
    Totals,
}

impl Output {
    /// How the report is written that these options ask for.
    pub fn of(options: &Options) -> Output
        ensures { result ≡ output_of options.now }
    {
        match options {
            Options::Lint { json: true, .. } => Output::Json,
            Options::Lint { json: false, .. } => Output::Text,
            Options::Gen { .. } => Output::Totals,
        }
    }
}

/// Whether the report that these options ask for tells the verdicts on labels.
pub fn with_labels(options: &Options) -> bool
    ensures { result ≡ tells_labels options.now }
{
    match options {
        Options::Lint { labels, .. } => *labels,
        Options::Gen { .. } => true,
    }
}

/// How many workers make the report that these options ask for.
pub fn worker_count(options: &Options) -> u32
    ensures { result ≡ workers_of options.now }
{
    match options {
        Options::Lint { workers, .. } => *workers,
        Options::Gen { .. } => WORKERS_OF_GENERATED,
    }
}

/// The report as it is written.
pub fn render(alloc: Global, output: Output, report: &Report) -> Result<Text, Memory>
    requires files { StandInFiles report.now }
    requires rules { NameRules report.now }
    ensures { IfOk result (λ text. text ≡ written output report.now) }
{
    match output {
        Output::Text => text_of(alloc, report),
        Output::Json => json_of(alloc, report),
        Output::Totals => totals_of(alloc, report),
    }
}

/// The totals of a report that tells verdicts: the last two lines of its text.
fn totals_of(alloc: Global, report: &Report) -> Result<Text, Memory>
    requires files { StandInFiles report.now }
    requires rules { NameRules report.now }
    ensures { IfOk result (λ text. text ≡ last_lines 2 (report_text report.now)) }
{
    let text = text_of(alloc, report)?;
    Text::of(alloc, last_two_lines(text.as_str()))
}
