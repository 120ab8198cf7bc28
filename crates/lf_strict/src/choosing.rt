//! Which labels come out of operators, groupings and vector matching.
ghost use Rattle.std.specs.Prelude.{◌&&◌, not, codes};
ghost use Rattle.std.specs.Str.{bytes_eq};
ghost use Rattle.lf_semantics.specs.Grouped.{is_grouped_by, is_metric, keeps, signs};

use lf_ast::{Grouping, LabelChoice, Matching, Op};
use lf_nodes::{is_grouped_by, is_metric, keeps, signs};

/// All labels but the metric name.
#[derive(Drop)]
pub struct AllButName;

impl LabelChoice for AllButName {
    ghost chooses = { λ choice label. not (is_metric label) };

    fn chooses(&self, label: &str) -> bool {
        !is_metric(label)
    }
}

/// All labels but the metric name and `le`.
#[derive(Drop)]
pub struct AllButNameAndBucket;

impl LabelChoice for AllButNameAndBucket {
    ghost chooses = { λ choice label. not (is_metric label) && not (bytes_eq label (codes "le")) };

    fn chooses(&self, label: &str) -> bool {
        !is_metric(label) && label != "le"
    }
}

/// The labels of a group.
#[derive(Drop)]
pub struct GroupLabels<'a> {
    pub grouping: &'a Grouping,
}

impl<'a> LabelChoice for GroupLabels<'a> {
    ghost chooses = { λ choice label. is_grouped_by choice.grouping.now label };

    fn chooses(&self, label: &str) -> bool {
        is_grouped_by(self.grouping, label)
    }
}

/// The labels of the signature.
#[derive(Drop)]
pub struct SignatureLabels<'a> {
    pub matching: &'a Matching,
}

impl<'a> LabelChoice for SignatureLabels<'a> {
    ghost chooses = { λ choice label. signs choice.matching.now label };

    fn chooses(&self, label: &str) -> bool {
        signs(self.matching, label)
    }
}

/// The labels that a pair keeps one to one.
#[derive(Drop)]
pub struct PairLabels<'a> {
    pub op: Op,
    pub matching: &'a Matching,
}

impl<'a> LabelChoice for PairLabels<'a> {
    ghost chooses = { λ choice label. keeps choice.op choice.matching.now label };

    fn chooses(&self, label: &str) -> bool {
        keeps(self.op, self.matching, label)
    }
}
