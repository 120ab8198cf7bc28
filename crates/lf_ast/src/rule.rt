//! Rules.

use crate::Expr;
use lf_base::{Seq, Span, Text};

/// A label that a rule sets on its samples. On a recording rule an empty value removes the label.
#[derive(Clone, Drop, Debug)]
pub struct RuleLabel {
    pub key: Text,
    pub key_span: Span,
    pub value: Text,
}

/// A template of an alert. `from` has an entry for each byte of the text and one for its end: the offset in the file of what gave it.
#[derive(Clone, Drop, Debug)]
pub struct Template {
    pub text: Text,
    pub from: Seq<u32>,
}

/// A recording rule or an alert.
#[derive(Drop, Debug)]
pub struct Rule {
    /// The number of the file, counted from 0.
    pub file: u32,
    /// The rule is an alert, and records nothing.
    pub alert: bool,
    /// The name of the metric that is recorded, or of the alert.
    pub name: Text,
    pub name_span: Span,
    pub expr: Expr,
    pub expr_span: Span,
    pub labels: Seq<RuleLabel>,
    /// The texts of an alert's labels and then of its annotations. A recording rule has none.
    pub templates: Seq<Template>,
}
