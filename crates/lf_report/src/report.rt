//! A report as data.

use lf_ast::RuleVerdicts;
use lf_base::{Kind, Seq, Span, Text};

/// What was found in files, and what is told of their rules.
#[derive(Drop)]
pub struct Report {
    /// The verdicts on labels are told.
    pub labels: bool,
    /// All files, in the order in which they were named.
    pub files: Seq<FileReport>,
    /// The rules of the files that aren't refused, file by file, in the order in which they stand there.
    pub rules: Seq<RuleReport>,
    /// The labels that the verdicts on a rule are about, in their order: those of the universe, and `*` last, which stands for every other.
    pub universe: Seq<Text>,
}

/// A file.
#[derive(Drop)]
pub struct FileReport {
    /// Its name, as it was asked for.
    pub name: Text,
    /// Its bytes. Places in it are told by them.
    pub source: Seq<u8>,
    /// Why it is refused, where it is.
    pub refusal: Option<Refused>,
}

/// Why a file is refused: it breaks a rule of this kind at this span, in bytes from 0.
#[derive(Clone, Copy, PartialEq, Eq, Debug)]
pub struct Refused {
    pub kind: Kind,
    pub span: Span,
}

/// What is told of a rule.
#[derive(Drop)]
pub struct RuleReport {
    /// The number of its file, counted from 0.
    pub file: u32,
    /// The rule is an alert, and records nothing.
    pub alert: bool,
    /// The name of the metric that is recorded, or of the alert.
    pub name: Text,
    /// Where the name stands in the file, in bytes from 0.
    pub name_span: Span,
    /// The verdicts on the labels of its samples, where they are told: one for each label of the report's universe, in its order, unless the rule is empty. Rules are numbered
    /// from 0 over all files. An unresolved label names what stands in the way; the number 0 of a construct stands where nothing is named.
    pub verdicts: Option<RuleVerdicts>,
    /// The rule has no sample in any run.
    pub empty: bool,
    /// What the checks find, in the order of the report.
    pub findings: Seq<ReportedFinding>,
}

/// How grave a finding is.
#[derive(Clone, Copy, PartialEq, Eq, Debug)]
pub enum Severity {
    /// A mistake. A run that tells one ends with a code of its own.
    Problem,
    /// Something to look at.
    Note,
}

/// What a check found of a rule.
#[derive(Drop)]
pub struct ReportedFinding {
    /// The name of the check, such as `expr/empty`.
    pub check: &'static str,
    pub severity: Severity,
    /// What it is about in the rule's file, in bytes from 0.
    pub span: Span,
    /// What it says, with names as they are.
    pub text: Text,
}
