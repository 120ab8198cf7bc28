//! The faults of groups and of a whole file.
ghost use Rattle.std.specs.Prelude.{◌≡◌, ◌++◌, ℕ, List, [], Some, map, option_map, OnOk};
ghost use Rattle.std.specs.List.{flat_map};
ghost use Rattle.std.specs.Str.{bytes_eq};
ghost use Rattle.lf_scalar.specs.Scalars.{value};
ghost use Rattle.lf_yaml.specs.Tree.{tree, pair};
ghost use Rattle.lf_base.specs.views.NameSets.{HasNames};
ghost use Rattle.lf_rules.specs.reading.Files as reading;
ghost use Rattle.lf_rules.specs.reading.Files.{least_from, least_each};

use crate::entries::{entries_of, entry_at, given, given_entry, scalar_of};
use crate::judging::{Level, TextKind, judge_keys, judge_missing, judge_scalar, judge_text, note};
use crate::judging_rules::judge_rules;
use lf_base::{Fault, Kind, Memory, NameSet, Span};
use lf_scalar::Scalar;
use lf_yaml::{Entry, Node};
use std::alloc::Global;

/// The keys of a group, and its name.
fn judge_group_name(first: &mut Option<Fault>, span: Span, entries: &[Entry])
    ensures { first.new ≡ least_each first.old (reading.group_name_parts span (map pair entries.now)) }
{
    judge_keys(first, Level::Group, entries);
    judge_missing(first, span, given_entry(entries, "name"));
    judge_scalar(first, given(entries, "name"));
}

/// The lengths of time, the limit and the rules of a group.
fn judge_group_values(first: &mut Option<Fault>, entries: &[Entry])
    ensures { first.new ≡ least_each first.old (reading.group_value_parts (map pair entries.now)) }
{
    judge_text(first, TextKind::Time, given(entries, "interval"));
    judge_text(first, TextKind::Limit, given(entries, "limit"));
    judge_text(first, TextKind::Time, given(entries, "query_offset"));
    judge_rules(first, given(entries, "rules"));
}

/// A group's entries.
fn judge_group(first: &mut Option<Fault>, span: Span, entries: &[Entry])
    ensures { first.new ≡ least_from first.old (reading.group_faults span (map pair entries.now)) }
{
    judge_group_name(first, span, entries);
    judge_group_values(first, entries);
}

/// A group is a mapping.
#[tactic(auto, unfolding(crate::specs::reading::Files::least_from))]
fn judge_group_node(first: &mut Option<Fault>, node: &Node)
    ensures { first.new ≡ least_from first.old (reading.group_tree_faults (tree node.now)) }
{
    match node {
        Node::Scalar { of } => note(first, Kind::WrongKind, of.span),
        Node::Map { entries, span } => judge_group(first, *span, entries.as_slice()),
        Node::List { span, .. } => note(first, Kind::WrongKind, *span),
    }
}

/// The groups of a list, one by one.
#[tactic(auto, unfolding(crate::specs::reading::Files::least_from), using(crate::proofs::Folded::least_flat))]
fn judge_each_group(first: &mut Option<Fault>, groups: &[Node])
    ensures { first.new ≡ least_from first.old (flat_map reading.group_tree_faults (map tree groups.now)) }
{
    let mut rest = groups;
    while let Some((node, others)) = rest.split_first() {
        judge_group_node(first, node);
        rest = others;
    }
}

/// The name of a group, where it has one.
#[tactic(auto, using(crate::proofs::Nodes::name_at))]
fn name_of(node: &Node) -> Option<&Scalar>
    ensures { option_map (λ s. value s.now) result ≡ reading.name_of (tree node.now) }
{
    match given(entries_of(node), "name") {
        Some(name) => scalar_of(name),
        None => None,
    }
}

/// The name of one more group, which none of those before it may have.
fn judge_name<'a>(
    first: &mut Option<Fault>,
    seen: &mut NameSet<'a>,
    group: &'a Node,
) -> Result<(), Memory>
    ensures first { OnOk result ((names : List (List ℕ)) → HasNames seen.old names → first.new ≡ least_from first.old (reading.again_faults names (reading.name_of (tree group.now)))) }
    ensures seen { OnOk result ((names : List (List ℕ)) → HasNames seen.old names → HasNames seen.new (reading.with_name names (reading.name_of (tree group.now)))) }
{
    if let Some(name) = name_of(group) {
        if !seen.add(name.text.as_str())? {
            note(first, Kind::DoubleGroup, name.span);
        }
    }
    Ok(())
}

/// A name may stand once among the groups of a file.
fn judge_names(first: &mut Option<Fault>, alloc: Global, groups: &[Node]) -> Result<(), Memory>
    ensures { OnOk result (first.new ≡ least_from first.old (reading.names_faults [] (map tree groups.now))) }
{
    let mut seen = NameSet::new(alloc);
    let mut rest = groups;
    while let Some((group, others)) = rest.split_first() {
        judge_name(first, &mut seen, group)?;
        rest = others;
    }
    Ok(())
}

/// The groups of a file, whose names differ.
#[tactic(auto, using(crate::proofs::Folded::least_both))]
fn judge_group_list(first: &mut Option<Fault>, alloc: Global, groups: &[Node]) -> Result<(), Memory>
    ensures { OnOk result (first.new ≡ least_from first.old (flat_map reading.group_tree_faults (map tree groups.now) ++ reading.names_faults [] (map tree groups.now))) }
{
    judge_each_group(first, groups);
    judge_names(first, alloc, groups)
}

/// The value of `groups`: a list of groups.
#[tactic(auto, unfolding(crate::specs::reading::Files::least_from))]
fn judge_groups_node(first: &mut Option<Fault>, alloc: Global, node: &Node) -> Result<(), Memory>
    ensures { OnOk result (first.new ≡ least_from first.old (reading.groups_faults (Some (tree node.now)))) }
{
    match node {
        Node::Scalar { of } => {
            note(first, Kind::WrongKind, of.span);
            Ok(())
        }
        Node::Map { span, .. } => {
            note(first, Kind::WrongKind, *span);
            Ok(())
        }
        Node::List { items, .. } => judge_group_list(first, alloc, items.as_slice()),
    }
}

/// The same, where it is there.
#[tactic(auto, unfolding(crate::specs::reading::Files::least_from))]
fn judge_groups(first: &mut Option<Fault>, alloc: Global, node: Option<&Node>) -> Result<(), Memory>
    ensures { OnOk result (first.new ≡ least_from first.old (reading.groups_faults (option_map (λ t. tree t.now) node.entry))) }
{
    match node {
        None => Ok(()),
        Some(node) => judge_groups_node(first, alloc, node),
    }
}

/// Whether a scalar has no text.
fn is_nothing(of: &Scalar) -> bool
    ensures { result ≡ bytes_eq of.now.text [] }
{
    of.text.len() == 0
}

/// A scalar as a whole file: it has no text.
#[tactic(auto, unfolding(crate::specs::reading::Files::least_from))]
fn judge_root(first: &mut Option<Fault>, of: &Scalar)
    ensures { first.new ≡ least_from first.old (reading.root_faults (value of.now)) }
{
    if !is_nothing(of) {
        note(first, Kind::WrongKind, of.span);
    }
}

/// The entries of a file: `groups` alone.
fn judge_file_entries(
    first: &mut Option<Fault>,
    alloc: Global,
    span: Span,
    entries: &[Entry],
) -> Result<(), Memory>
    ensures { OnOk result (first.new ≡ least_from first.old (reading.file_faults span (map pair entries.now))) }
{
    judge_keys(first, Level::File, entries);
    judge_missing(first, span, entry_at(entries, "groups"));
    judge_groups(first, alloc, given(entries, "groups"))?;
    Ok(())
}

/// A file: nothing, or a mapping.
#[tactic(auto, unfolding(crate::specs::reading::Files::least_from))]
pub fn judge_file(first: &mut Option<Fault>, alloc: Global, node: &Node) -> Result<(), Memory>
    ensures { OnOk result (first.new ≡ least_from first.old (reading.faults (tree node.now))) }
{
    match node {
        Node::Scalar { of } => {
            judge_root(first, of);
            Ok(())
        }
        Node::Map { entries, span } => judge_file_entries(first, alloc, *span, entries.as_slice()),
        Node::List { span, .. } => {
            note(first, Kind::WrongKind, *span);
            Ok(())
        }
    }
}
