//! The faults of rules.
ghost use Rattle.std.specs.Prelude.{◌≡◌, ◌++◌, Some, map, option_map, codes};
ghost use Rattle.std.specs.List.{flat_map};
ghost use Rattle.lf_yaml.specs.Tree.{tree, pair};
ghost use Rattle.lf_rules.specs.Mappings.{given_entry as given_at};
ghost use Rattle.lf_rules.specs.reading.Files as reading;
ghost use Rattle.lf_rules.specs.reading.Files.{least_from, least_each};

use crate::entries::{given, given_entry, value_of};
use crate::judging::{
    Level, TextKind, judge_keys, judge_missing, judge_scalar, judge_settings, judge_text, note,
    note_at_start,
};
use lf_base::{Fault, Kind, Span};
use lf_yaml::{Entry, Node};

/// Whether of the keys `record` and `alert` the first entry is `record`.
#[tactic(auto, unfolding(crate::specs::reading::Files::records_first))]
fn records_first(entries: &[Entry]) -> bool
    ensures { result ≡ reading.records_first (map pair entries.now) }
{
    let mut rest = entries;
    while let Some((entry, others)) = rest.split_first() {
        let key = entry.key.text.as_str();
        if key == "record" {
            return true;
        }
        if key == "alert" {
            return false;
        }
        rest = others;
    }
    true
}

/// A rule has one of `record` and `alert`.
#[tactic(auto, unfolding(crate::specs::reading::Files::least_from))]
fn judge_kind(
    first: &mut Option<Fault>,
    span: Span,
    is_record_first: bool,
    recorded: Option<&Entry>,
    alerted: Option<&Entry>,
)
    ensures { first.new ≡ least_from first.old (reading.kind_faults span is_record_first (option_map (λ e. pair e.now) recorded.entry) (option_map (λ e. pair e.now) alerted.entry)) }
{
    match recorded {
        None => {
            if alerted.is_none() {
                note_at_start(first, Kind::MissingKey, span);
            }
        }
        Some(recorded) => {
            if let Some(alerted) = alerted {
                let later = if is_record_first { alerted } else { recorded };
                note(first, Kind::BothKinds, later.key.span);
            }
        }
    }
}

/// A key that only alerts have.
#[tactic(auto, unfolding(crate::specs::reading::Files::least_from))]
fn judge_misplaced(first: &mut Option<Fault>, found: Option<&Entry>)
    ensures { first.new ≡ least_from first.old (reading.misplaced (option_map (λ e. pair e.now) found.entry)) }
{
    if let Some(entry) = found {
        note(first, Kind::NotForRecord, entry.key.span);
    }
}

/// None of an alert's keys may stand.
fn judge_all_misplaced(first: &mut Option<Fault>, entries: &[Entry])
    ensures { first.new ≡ least_from first.old (reading.misplaced (given_at (codes "for") (map pair entries.now)) ++ (reading.misplaced (given_at (codes "keep_firing_for") (map pair entries.now)) ++ reading.misplaced (given_at (codes "annotations") (map pair entries.now)))) }
{
    judge_misplaced(first, given_entry(entries, "for"));
    judge_misplaced(first, given_entry(entries, "keep_firing_for"));
    judge_misplaced(first, given_entry(entries, "annotations"));
}

/// A rule that records, and isn't an alert too, has none of an alert's keys.
#[tactic(auto, unfolding(crate::specs::reading::Files::least_from))]
fn judge_alert_keys(
    first: &mut Option<Fault>,
    recorded: Option<&Entry>,
    alerted: Option<&Entry>,
    entries: &[Entry],
)
    ensures { first.new ≡ least_from first.old (reading.alert_faults (option_map (λ e. pair e.now) recorded.entry) (option_map (λ e. pair e.now) alerted.entry) (map pair entries.now)) }
{
    match recorded {
        None => {}
        Some(_) => match alerted {
            None => judge_all_misplaced(first, entries),
            Some(_) => {}
        },
    }
}

/// The keys of a rule, and whether it records or alerts, by its entries of `record` and `alert`.
fn judge_rule_keys(
    first: &mut Option<Fault>,
    span: Span,
    entries: &[Entry],
    recorded: Option<&Entry>,
    alerted: Option<&Entry>,
)
    requires recorded { option_map (λ e. pair e.now) recorded ≡ given_at (codes "record") (map pair entries.now) }
    requires alerted { option_map (λ e. pair e.now) alerted ≡ given_at (codes "alert") (map pair entries.now) }
    ensures { first.new ≡ least_each first.old (reading.rule_key_parts span (map pair entries.now)) }
{
    judge_keys(first, Level::Rule, entries);
    judge_kind(first, span, records_first(entries), recorded, alerted);
    judge_alert_keys(first, recorded, alerted, entries);
}

/// The name of a rule, by its entries of `record` and `alert`, and its expression.
fn judge_rule_texts(
    first: &mut Option<Fault>,
    span: Span,
    entries: &[Entry],
    recorded: Option<&Entry>,
    alerted: Option<&Entry>,
)
    requires recorded { option_map (λ e. pair e.now) recorded ≡ given_at (codes "record") (map pair entries.now) }
    requires alerted { option_map (λ e. pair e.now) alerted ≡ given_at (codes "alert") (map pair entries.now) }
    ensures { first.new ≡ least_each first.old (reading.rule_text_parts span (map pair entries.now)) }
{
    let expr = given_entry(entries, "expr");
    judge_text(first, TextKind::Metric, value_of(recorded));
    judge_scalar(first, value_of(alerted));
    judge_missing(first, span, expr);
    judge_scalar(first, value_of(expr));
}

/// The lengths of time, labels and annotations of a rule.
fn judge_rule_settings(first: &mut Option<Fault>, entries: &[Entry])
    ensures { first.new ≡ least_each first.old (reading.rule_setting_parts (map pair entries.now)) }
{
    judge_text(first, TextKind::Time, given(entries, "for"));
    judge_text(first, TextKind::Time, given(entries, "keep_firing_for"));
    judge_settings(first, true, given(entries, "labels"));
    judge_settings(first, false, given(entries, "annotations"));
}

/// A rule's entries.
fn judge_rule(first: &mut Option<Fault>, span: Span, entries: &[Entry])
    ensures { first.new ≡ least_from first.old (reading.rule_faults span (map pair entries.now)) }
{
    let recorded = given_entry(entries, "record");
    let alerted = given_entry(entries, "alert");
    judge_rule_keys(first, span, entries, recorded, alerted);
    judge_rule_texts(first, span, entries, recorded, alerted);
    judge_rule_settings(first, entries);
}

/// A rule is a mapping.
#[tactic(auto, unfolding(crate::specs::reading::Files::least_from))]
fn judge_rule_node(first: &mut Option<Fault>, node: &Node)
    ensures { first.new ≡ least_from first.old (reading.rule_tree_faults (tree node.now)) }
{
    match node {
        Node::Scalar { of } => note(first, Kind::WrongKind, of.span),
        Node::Map { entries, span } => judge_rule(first, *span, entries.as_slice()),
        Node::List { span, .. } => note(first, Kind::WrongKind, *span),
    }
}

/// The rules of a list, one by one.
#[tactic(auto, unfolding(crate::specs::reading::Files::least_from), using(crate::proofs::Folded::least_flat))]
fn judge_each_rule(first: &mut Option<Fault>, nodes: &[Node])
    ensures { first.new ≡ least_from first.old (flat_map reading.rule_tree_faults (map tree nodes.now)) }
{
    let mut rest = nodes;
    while let Some((node, others)) = rest.split_first() {
        judge_rule_node(first, node);
        rest = others;
    }
}

#[tactic(auto, unfolding(crate::specs::reading::Files::least_from))]
fn judge_rules_node(first: &mut Option<Fault>, node: &Node)
    ensures { first.new ≡ least_from first.old (reading.rules_faults (Some (tree node.now))) }
{
    match node {
        Node::Scalar { of } => note(first, Kind::WrongKind, of.span),
        Node::Map { span, .. } => note(first, Kind::WrongKind, *span),
        Node::List { items, .. } => judge_each_rule(first, items.as_slice()),
    }
}

/// The rules of a group, where they are there: a list of rules.
#[tactic(auto, unfolding(crate::specs::reading::Files::least_from))]
pub fn judge_rules(first: &mut Option<Fault>, node: Option<&Node>)
    ensures { first.new ≡ least_from first.old (reading.rules_faults (option_map (λ t. tree t.now) node.entry)) }
{
    match node {
        None => {}
        Some(node) => judge_rules_node(first, node),
    }
}
