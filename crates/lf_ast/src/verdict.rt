//! What is found of a rule.

use crate::LabelSet;
use lf_base::{Seq, Span, Text};

/// A world that shows a label: scraped series, the rules that are evaluated over them, by number and in order, and the sample that the rule in question then gives.
#[derive(Drop, Debug)]
pub struct World {
    pub series: Seq<LabelSet>,
    pub steps: Seq<u32>,
    pub sample: LabelSet,
}

/// What is known of a label on the samples of a rule's expression.
#[derive(Drop, Debug)]
pub enum Verdict {
    /// It is on every sample.
    Guaranteed,
    /// It is on no sample.
    Impossible,
    /// It is on one sample and not on another, and here are two worlds that show both.
    Possible {
        with: World,
        without: World,
    },
    /// The construct with this number, at this span of the rule with this number, stands in the way of an answer.
    Unresolved {
        construct: u8,
        rule: u32,
        span: Span,
    },
}

/// What is known of a rule.
#[derive(Drop, Debug)]
pub enum RuleVerdicts {
    /// Its expression has no sample in any run.
    Empty,
    /// A verdict for each label.
    Labels { of: Seq<Verdict> },
}

/// A finding on a rule: the number of the check and of its case, both as the table of checks counts them, where it stands, the label or name that it is about,
/// and the other rule that it names, if any.
#[derive(Drop, Debug)]
pub struct Finding {
    pub check: u8,
    pub case: u8,
    pub span: Span,
    pub label: Text,
    pub other: Option<u32>,
}
