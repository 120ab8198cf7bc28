//! A label followed through operators.
ghost use Rattle.std.specs.Prelude.{◌≡◌, option_and_then};
ghost use Rattle.lf_trials.specs.Follow.{follow_binary, follow_operator, follow_pair, nameless_if, text_of_pair};
ghost use Rattle.lf_semantics.specs.Grouped.{is_filter};

use crate::effects::nameless;
use crate::told::{empty, lost};
use lf_ast::{Matching, Op};
use lf_base::Text;
use lf_candidates::{left_gives, right_gives};
use lf_nodes::{is_filter, signs};
use std::alloc::Global;

/// The text of a label where the metric name is dropped or kept.
pub fn nameless_if(alloc: Global, label: &str, drops: bool, text: Option<Text>) -> Option<Text>
    ensures { result ≡ nameless_if label.now drops text }
{
    if drops {
        nameless(alloc, label, text)
    } else {
        text
    }
}

/// The text of a label behind an operator, by whether its sides are scalars and by the texts on them.
pub fn binary(
    alloc: Global,
    label: &str,
    op: Op,
    matching: &Matching,
    scalars: (bool, bool),
    left: Option<Text>,
    right: Option<Text>,
) -> Option<Text>
    ensures { result ≡ follow_binary label.now op matching.now scalars.0 scalars.1 left right }
{
    match scalars {
        (true, true) => lost(alloc),
        (false, true) => nameless_if(alloc, label, !is_filter(op, matching), left),
        (true, false) => nameless_if(alloc, label, !is_filter(op, matching), right),
        (false, false) => operator(alloc, label, op, matching, left, right),
    }
}

/// The text of a label behind an operator of two vectors. Of `unless` the left side alone counts, and of `or` the right one where the left one fails.
fn operator(
    alloc: Global,
    label: &str,
    op: Op,
    matching: &Matching,
    left: Option<Text>,
    right: Option<Text>,
) -> Option<Text>
    ensures { result ≡ follow_operator label.now op matching.now left right }
{
    match op {
        Op::Or => match left {
            Some(text) => Some(text),
            None => right,
        },
        Op::Unless => left,
        Op::Add
        | Op::Subtract
        | Op::Multiply
        | Op::Divide
        | Op::Modulo
        | Op::Power
        | Op::Atan2
        | Op::Equal
        | Op::NotEqual
        | Op::LessOrEqual
        | Op::Less
        | Op::GreaterOrEqual
        | Op::Greater
        | Op::And => paired(alloc, label, op, matching, left, right),
    }
}

/// The text of a label on the result of a match, which fails where it fails on a side.
fn paired(
    alloc: Global,
    label: &str,
    op: Op,
    matching: &Matching,
    left: Option<Text>,
    right: Option<Text>,
) -> Option<Text>
    ensures { result ≡ option_and_then (λ s. option_and_then (follow_pair label.now op matching.now s) right) left }
{
    match (left, right) {
        (Some(left), Some(right)) => pair(alloc, label, op, matching, left, right),
        _ => None,
    }
}

/// The text of a label on the result of a pair. It fails where the label is in the signature and the sides differ.
fn pair(
    alloc: Global,
    label: &str,
    op: Op,
    matching: &Matching,
    left: Text,
    right: Text,
) -> Option<Text>
    ensures { result ≡ follow_pair label.now op matching.now left right }
{
    if signs(matching, label) && left.as_str() != right.as_str() {
        None
    } else {
        Some(text_of_pair(alloc, label, op, matching, left, right))
    }
}

/// The text on the side that gives the label, and none where neither does.
fn text_of_pair(
    alloc: Global,
    label: &str,
    op: Op,
    matching: &Matching,
    left: Text,
    right: Text,
) -> Text
    ensures { result ≡ text_of_pair label.now op matching.now left right }
{
    if left_gives(op, matching, label) {
        left
    } else if right_gives(op, matching, label) {
        right
    } else {
        empty(alloc)
    }
}
