//! Choices among labels: which labels an operand doesn't hand on, and which side of a match gives a label.
ghost use Rattle.std.specs.Prelude.{◌≡◌, ◌&&◌, ◌||◌, not};
ghost use Rattle.std.specs.Str.{bytes_eq};
ghost use Rattle.lf_ast.specs.Types.{is_among};
ghost use Rattle.lf_semantics.specs.Grouped.{is_arithmetic, is_grouped_by, is_metric, keeps};
ghost use Rattle.std.specs.List.{list_any};
ghost use Rattle.lf_trials.specs.Sides.{drops, drops_last, left_gives, many_side_gives, one_side_gives, right_gives};

use lf_ast::{Group, Grouping, LabelChoice, Matching, Op, RuleLabel};
use lf_nodes::{is_among, is_arithmetic, is_grouped_by, is_metric, keeps};

/// The metric name.
#[derive(Drop)]
pub struct MetricName;

impl LabelChoice for MetricName {
    ghost chooses = { λ choice label. is_metric label };

    fn chooses(&self, label: &str) -> bool {
        is_metric(label)
    }
}

/// One label.
#[derive(Drop)]
pub struct OneLabel<'a> {
    pub name: &'a str,
}

impl<'a> LabelChoice for OneLabel<'a> {
    ghost chooses = { λ choice label. bytes_eq choice.name.now label };

    fn chooses(&self, label: &str) -> bool {
        self.name == label
    }
}

/// The labels that a grouping takes out.
#[derive(Drop)]
pub struct OutsideGroup<'a> {
    pub grouping: &'a Grouping,
}

impl<'a> LabelChoice for OutsideGroup<'a> {
    ghost chooses = { λ choice label. not (is_grouped_by choice.grouping.now label) };

    fn chooses(&self, label: &str) -> bool {
        !is_grouped_by(self.grouping, label)
    }
}

/// The labels that `count_values` doesn't take from its operand: its own, and those that the grouping takes out.
#[derive(Drop)]
pub struct OutsideCount<'a> {
    pub name: &'a str,
    pub grouping: &'a Grouping,
}

impl<'a> LabelChoice for OutsideCount<'a> {
    ghost chooses = { λ choice label. bytes_eq label choice.name.now || not (is_grouped_by choice.grouping.now label) };

    fn chooses(&self, label: &str) -> bool {
        label == self.name || !is_grouped_by(self.grouping, label)
    }
}

/// The labels that a recording rule sets: the metric name, and its own labels.
#[derive(Drop)]
pub struct SetByRule<'a> {
    pub labels: &'a [RuleLabel],
}

impl<'a> LabelChoice for SetByRule<'a> {
    ghost chooses = { λ choice label. is_metric label || list_any (λ l. bytes_eq l.key label) choice.labels.now };

    fn chooses(&self, label: &str) -> bool {
        is_metric(label) || sets_label(self.labels, label)
    }
}

/// Whether one of these labels has the name.
fn sets_label(labels: &[RuleLabel], name: &str) -> bool
    ensures { result ≡ list_any (λ l. bytes_eq l.key name.now) labels.now }
{
    labels.iter().any(|label| label.key.as_str() == name)
}

/// Whether `bool` drops a label last.
fn drops_last(matching: &Matching, label: &str) -> bool
    ensures { result ≡ drops_last matching.now label.now }
{
    matching.bool_mod && is_metric(label)
}

/// Whether the one side of a match gives a label: it is one of the group's list.
fn one_side_gives(matching: &Matching, label: &str) -> bool
    ensures { result ≡ one_side_gives matching.now label.now }
{
    is_among(matching.include.as_slice(), label) && !drops_last(matching, label)
}

/// Whether the many side of a match gives a label: it is none of the group's list.
fn many_side_gives(op: Op, matching: &Matching, label: &str) -> bool
    ensures { result ≡ many_side_gives op matching.now label.now }
{
    let drops_name = drops_last(matching, label) || (is_arithmetic(op) && is_metric(label));
    !is_among(matching.include.as_slice(), label) && !drops_name
}

/// Whether the left side of an operator gives a label to the result.
pub fn left_gives(op: Op, matching: &Matching, label: &str) -> bool
    ensures { result ≡ left_gives op matching.now label.now }
{
    match (op, matching.group) {
        (Op::And, _) => true,
        (_, Group::One) => keeps(op, matching, label),
        (_, Group::Left) => many_side_gives(op, matching, label),
        (_, Group::Right) => one_side_gives(matching, label),
    }
}

/// Whether the right side of an operator gives a label to the result.
pub fn right_gives(op: Op, matching: &Matching, label: &str) -> bool
    ensures { result ≡ right_gives op matching.now label.now }
{
    match (op, matching.group) {
        (Op::And, _) | (_, Group::One) => false,
        (_, Group::Left) => one_side_gives(matching, label),
        (_, Group::Right) => many_side_gives(op, matching, label),
    }
}

/// Whether the result of an operator drops a label.
pub fn drops(op: Op, matching: &Matching, label: &str) -> bool
    ensures { result ≡ drops op matching.now label.now }
{
    !(left_gives(op, matching, label) || right_gives(op, matching, label))
}
