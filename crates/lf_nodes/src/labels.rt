//! Which labels a grouping and a vector matching name.
ghost use Rattle.std.specs.Prelude.{◌≡◌};
ghost use Rattle.lf_ast.specs.Types.{is_among, names_at};
ghost use Rattle.lf_semantics.specs.Grouped.{is_grouped_by, is_metric, keeps, keeps_by, signs};

use crate::operators::is_arithmetic;
use lf_ast::{Grouping, Matching, Name, Op};
use lf_base::names;

/// Whether a label is one of a group: one of `by`, or none of `without` and not the metric name.
pub fn is_grouped_by(grouping: &Grouping, label: &str) -> bool
    ensures { result ≡ is_grouped_by grouping.now label.now }
{
    match grouping {
        Grouping::None => false,
        Grouping::By { labels } => is_among(labels.as_slice(), label),
        Grouping::Without { labels } => !(is_among(labels.as_slice(), label) || is_metric(label)),
    }
}

/// Whether a label is one of the signature: one of `on`, or else none of `ignoring` and not the metric name.
pub fn signs(matching: &Matching, label: &str) -> bool
    ensures { result ≡ signs matching.now label.now }
{
    match &matching.on {
        Some(on) => is_among(on.as_slice(), label),
        None => !(is_ignored(matching, label) || is_metric(label)),
    }
}

/// Whether an operator keeps a label of the left side one to one. Arithmetic and `bool` drop the metric name.
pub fn keeps(op: Op, matching: &Matching, label: &str) -> bool
    ensures { result ≡ keeps op matching.now label.now }
{
    let drops_name = is_arithmetic(op) || matching.bool_mod;
    is_kept(matching, label) && !(drops_name && is_metric(label))
}

/// Whether `on` keeps a label, or `ignoring` doesn't drop it.
fn is_kept(matching: &Matching, label: &str) -> bool
    ensures { result ≡ keeps_by matching.now.on matching.now.ignoring label.now }
{
    match &matching.on {
        Some(on) => is_among(on.as_slice(), label),
        None => !is_ignored(matching, label),
    }
}

/// Whether a label is one of `ignoring`.
fn is_ignored(matching: &Matching, label: &str) -> bool
    ensures { result ≡ is_among (names_at matching.now.ignoring) label.now }
{
    match &matching.ignoring {
        Some(ignoring) => is_among(ignoring.as_slice(), label),
        None => false,
    }
}

/// Whether a label is one of these names.
pub fn is_among(names: &[Name], label: &str) -> bool
    ensures { result ≡ is_among names.now label.now }
{
    names.iter().any(|name| label == name.text.as_str())
}

/// Whether a label is the metric name, `__name__`.
pub fn is_metric(label: &str) -> bool
    ensures { result ≡ is_metric label.now }
{
    names::is_metric(label.as_bytes())
}
