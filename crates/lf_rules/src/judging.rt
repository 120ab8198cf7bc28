//! The faults of single keys and values.
ghost use Rattle.std.specs.Prelude.{◌≡◌, Some, map, option_map};
ghost use Rattle.std.specs.List.{flat_map, list_any};
ghost use Rattle.std.specs.Str.{bytes_eq};
ghost use Rattle.lf_yaml.specs.Tree.{tree, pair};
ghost use Rattle.lf_base.specs.Faults.{fault};
ghost use Rattle.lf_rules.specs.Breaches.{at_start};
ghost use Rattle.lf_rules.specs.reading.Files as reading;
ghost use Rattle.lf_rules.specs.reading.Files.{least_from};

use crate::texts::{is_limit, is_time};
use lf_base::names::{is_label_name, is_metric, is_metric_name};
use lf_base::{Fault, Kind, Span, Text};
use lf_yaml::{Entry, Node};

/// What a text has to be.
#[derive(Clone, Copy)]
pub enum TextKind {
    /// A metric name.
    Metric,
    /// A length of time.
    Time,
    /// A limit.
    Limit,
}

impl TextKind {
    fn is(self, text: &Text) -> bool
        ensures { result ≡ reading.test_of self text.now }
    {
        let bytes = text.as_str().as_bytes();
        match self {
            TextKind::Metric => is_metric_name(bytes),
            TextKind::Time => is_time(bytes),
            TextKind::Limit => is_limit(bytes),
        }
    }

    fn kind(self) -> Kind
        ensures { result ≡ reading.kind_of self }
    {
        match self {
            TextKind::Metric => Kind::BadName,
            TextKind::Time => Kind::BadDuration,
            TextKind::Limit => Kind::BadLimit,
        }
    }
}

/// Notes one more fault: of those so far and this one the one that is told stays.
pub fn note(first: &mut Option<Fault>, kind: Kind, span: Span)
    ensures { first.new ≡ reading.lesser first.old (fault kind span) }
{
    *first = Fault::first(*first, Some(Fault { kind, span }));
}

/// Notes a fault at the first character of a mapping.
pub fn note_at_start(first: &mut Option<Fault>, kind: Kind, span: Span)
    ensures { first.new ≡ reading.lesser first.old (at_start kind span) }
{
    let end = span.start.saturating_add(1);
    note(
        first,
        kind,
        Span {
            start: span.start,
            end,
        },
    );
}

/// A value that is there has to be a scalar.
#[tactic(auto, unfolding(crate::specs::reading::Files::least_from))]
pub fn judge_scalar(first: &mut Option<Fault>, node: Option<&Node>)
    ensures { first.new ≡ least_from first.old (reading.scalar_faults (option_map (λ t. tree t.now) node.entry)) }
{
    match node {
        None => {}
        Some(Node::Scalar { .. }) => {}
        Some(Node::Map { span, .. }) => note(first, Kind::WrongKind, *span),
        Some(Node::List { span, .. }) => note(first, Kind::WrongKind, *span),
    }
}

/// A value that is there has to be a scalar with such a text.
#[tactic(auto, unfolding(crate::specs::reading::Files::least_from))]
pub fn judge_text(first: &mut Option<Fault>, wanted: TextKind, node: Option<&Node>)
    ensures { first.new ≡ least_from first.old (reading.text_faults (reading.test_of wanted) (reading.kind_of wanted) (option_map (λ t. tree t.now) node.entry)) }
{
    match node {
        None => {}
        Some(Node::Scalar { of }) => {
            if !wanted.is(&of.text) {
                note(first, wanted.kind(), of.span);
            }
        }
        Some(Node::Map { span, .. }) => note(first, Kind::WrongKind, *span),
        Some(Node::List { span, .. }) => note(first, Kind::WrongKind, *span),
    }
}

/// A key that must be there.
#[tactic(auto, unfolding(crate::specs::reading::Files::least_from))]
pub fn judge_missing(first: &mut Option<Fault>, span: Span, found: Option<&Entry>)
    ensures { first.new ≡ least_from first.old (reading.missing_faults span (option_map (λ e. pair e.now) found.entry)) }
{
    if found.is_none() {
        note_at_start(first, Kind::MissingKey, span);
    }
}

/// A mapping of a rule file.
#[derive(Clone, Copy)]
pub enum Level {
    /// The file itself.
    File,
    /// A group.
    Group,
    /// A rule.
    Rule,
}

/// Whether a mapping may have a key.
fn is_known(level: Level, key: &str) -> bool
    ensures { result ≡ list_any (bytes_eq key.now) (reading.keys_of level) }
{
    match level {
        Level::File => key == "groups",
        Level::Group => key == "name"
            || key == "rules"
            || key == "interval"
            || key == "limit"
            || key == "query_offset",
        Level::Rule => {
            key == "record"
                || key == "alert"
                || key == "expr"
                || key == "for"
                || key == "keep_firing_for"
                || key == "labels"
                || key == "annotations"
        }
    }
}

/// A key has to be one of those that are known.
#[tactic(auto, unfolding(crate::specs::reading::Files::least_from))]
fn judge_key(first: &mut Option<Fault>, level: Level, entry: &Entry)
    ensures { first.new ≡ least_from first.old (reading.unknown_faults (reading.keys_of level) (pair entry.now)) }
{
    if !is_known(level, entry.key.text.as_str()) {
        note(first, Kind::UnknownKey, entry.key.span);
    }
}

/// Each key has to be one of those that are known.
#[tactic(auto, unfolding(crate::specs::reading::Files::least_from), using(crate::proofs::Folded::least_flat))]
pub fn judge_keys(first: &mut Option<Fault>, level: Level, entries: &[Entry])
    ensures { first.new ≡ least_from first.old (flat_map (reading.unknown_faults (reading.keys_of level)) (map pair entries.now)) }
{
    let mut rest = entries;
    while let Some((entry, others)) = rest.split_first() {
        judge_key(first, level, entry);
        rest = others;
    }
}

/// A label or an annotation: its key has to be a label name, and its value a scalar.
#[tactic(auto, unfolding(crate::specs::reading::Files::least_from))]
fn judge_setting(first: &mut Option<Fault>, is_labels: bool, entry: &Entry)
    ensures { first.new ≡ least_from first.old (reading.setting_faults is_labels (pair entry.now)) }
{
    let key = entry.key.text.as_str().as_bytes();
    if !is_label_name(key) || (is_labels && is_metric(key)) {
        note(first, Kind::BadName, entry.key.span);
    }
    judge_scalar(first, Some(&entry.value));
}

/// Labels or annotations, where they are there: a mapping of such.
#[tactic(auto, unfolding(crate::specs::reading::Files::least_from))]
pub fn judge_settings(first: &mut Option<Fault>, is_labels: bool, node: Option<&Node>)
    ensures { first.new ≡ least_from first.old (reading.settings_faults is_labels (option_map (λ t. tree t.now) node.entry)) }
{
    match node {
        None => {}
        Some(node) => judge_mapping(first, is_labels, node),
    }
}

#[tactic(auto, unfolding(crate::specs::reading::Files::least_from))]
fn judge_mapping(first: &mut Option<Fault>, is_labels: bool, node: &Node)
    ensures { first.new ≡ least_from first.old (reading.settings_faults is_labels (Some (tree node.now))) }
{
    match node {
        Node::Scalar { of } => note(first, Kind::WrongKind, of.span),
        Node::Map { entries, .. } => judge_each_setting(first, is_labels, entries.as_slice()),
        Node::List { span, .. } => note(first, Kind::WrongKind, *span),
    }
}

#[tactic(auto, unfolding(crate::specs::reading::Files::least_from), using(crate::proofs::Folded::least_flat))]
fn judge_each_setting(first: &mut Option<Fault>, is_labels: bool, entries: &[Entry])
    ensures { first.new ≡ least_from first.old (flat_map (reading.setting_faults is_labels) (map pair entries.now)) }
{
    let mut rest = entries;
    while let Some((entry, others)) = rest.split_first() {
        judge_setting(first, is_labels, entry);
        rest = others;
    }
}
