//! The rules of a tree without faults.
ghost use Rattle.std.specs.Prelude.{◌≡◌, ◌++◌, suc, [], Some, map, option_map, codes, IfOk, OnOk};
ghost use Rattle.lf_scalar.specs.Scalars.{value};
ghost use Rattle.lf_yaml.specs.Tree.{tree, pair};
ghost use Rattle.lf_rules.specs.Mappings as mappings;
ghost use Rattle.lf_rules.specs.reading.Files as reading;
ghost use Rattle.lf_rules.specs.Sources as sources;

use crate::entries::{entries_of, given, items_of};
use crate::source::{PairInTree, RuleInTree};
use lf_base::{Memory, Seq};
use lf_scalar::Scalar;
use lf_yaml::{Entry, Node};
use std::alloc::Global;

/// The scalar that a node is.
fn leaf(node: &Node) -> &Scalar
    requires { reading.IsLeaf (tree node.now) }
    ensures { value result.now ≡ reading.leaf_of (tree node.now) }
{
    match node {
        Node::Scalar { of } => of,
        Node::Map { .. } => unreachable!(),
        Node::List { .. } => unreachable!(),
    }
}

/// The scalar of a key.
fn scalar_at<'a>(entries: &'a [Entry], key: &str) -> &'a Scalar
    requires { reading.IsFilled (mappings.given key.now (map pair entries.now)) }
    ensures { value result.now ≡ reading.text_of (mappings.given key.now (map pair entries.now)) }
{
    match given(entries, key) {
        Some(node) => leaf(node),
        None => unreachable!(),
    }
}

/// The items of the list that a key has, and none where the key is missing.
fn items_at<'a>(entries: &'a [Entry], key: &str) -> &'a [Node]
    ensures { map tree result.now ≡ reading.items_of (mappings.given key.now (map pair entries.now)) }
{
    match given(entries, key) {
        Some(node) => items_of(node),
        None => &[],
    }
}

/// A label or an annotation.
fn setting(entry: &Entry) -> PairInTree<'_>
    requires { reading.IsLeaf (pair entry.now).1 }
    ensures { sources.setting_in result ≡ reading.setting_of (pair entry.now) }
{
    PairInTree {
        key: &entry.key,
        value: leaf(&entry.value),
    }
}

/// All of them, in their order.
fn all_settings(alloc: Global, entries: &[Entry]) -> Result<Seq<PairInTree<'_>>, Memory>
    requires { reading.AreLeaves (map pair entries.now) }
    ensures { IfOk result (λ ps. map sources.setting_in ps ≡ map reading.setting_of (map pair entries.now)) }
{
    let mut pairs = Seq::with_capacity(alloc, entries.len())?;
    let mut rest = entries;
    while let Some((entry, others)) = rest.split_first() {
        pairs.push(setting(entry))?;
        rest = others;
    }
    Ok(pairs)
}

/// The labels or annotations of a key, and none where it is missing.
fn settings(alloc: Global, node: Option<&Node>) -> Result<Seq<PairInTree<'_>>, Memory>
    requires { reading.SetsLeaves (option_map (λ t. tree t.now) node) }
    ensures { IfOk result (λ ps. map sources.setting_in ps ≡ reading.settings_of (option_map (λ t. tree t.now) node.entry)) }
{
    match node {
        Some(node) => all_settings(alloc, entries_of(node)),
        None => Ok(Seq::new(alloc)),
    }
}

/// The name of a rule: the text of `record`, and else that of `alert`.
fn rule_name(entries: &[Entry]) -> &Scalar
    requires { reading.IsNamed (mappings.given (codes "record") (map pair entries.now)) (mappings.given (codes "alert") (map pair entries.now)) }
    ensures { value result.now ≡ reading.name_text (mappings.given (codes "record") (map pair entries.now)) (mappings.given (codes "alert") (map pair entries.now)) }
{
    match given(entries, "record") {
        Some(node) => leaf(node),
        None => scalar_at(entries, "alert"),
    }
}

/// Whether a rule alerts: it doesn't record.
fn is_alert(entries: &[Entry]) -> bool
    ensures { result ≡ reading.is_alert (mappings.given (codes "record") (map pair entries.now)) }
{
    given(entries, "record").is_none()
}

/// A rule in the group with a number.
fn rule_source(alloc: Global, group: u32, entries: &[Entry]) -> Result<RuleInTree<'_>, Memory>
    requires { reading.IsReadable (map pair entries.now) }
    ensures { IfOk result (λ r. sources.source_in r ≡ reading.rule_source group (map pair entries.now)) }
{
    let labels = settings(alloc, given(entries, "labels"))?;
    let annotations = settings(alloc, given(entries, "annotations"))?;
    Ok(RuleInTree {
        alert: is_alert(entries),
        name: rule_name(entries),
        expr: scalar_at(entries, "expr"),
        labels,
        annotations,
        group,
    })
}

/// Appends the rules of a group with a number.
fn push_rules<'a>(
    rules: &mut Seq<RuleInTree<'a>>,
    alloc: Global,
    group: u32,
    nodes: &'a [Node],
) -> Result<(), Memory>
    requires { reading.AreReadable (map tree nodes.now) }
    ensures { OnOk result (map sources.source_in rules.new ≡ map sources.source_in rules.old ++ map (reading.tree_source group) (map tree nodes.now)) }
{
    let mut rest = nodes;
    while let Some((node, others)) = rest.split_first() {
        rules.push(rule_source(alloc, group, entries_of(node))?)?;
        rest = others;
    }
    Ok(())
}

/// Appends the rules of all groups, which are numbered from 0. There is no memory for so many groups that their numbers don't fit.
#[tactic(auto, unfolding(crate::specs::reading::Files::groups_sources))]
fn push_groups<'a>(
    rules: &mut Seq<RuleInTree<'a>>,
    alloc: Global,
    groups: &'a [Node],
) -> Result<(), Memory>
    requires { reading.AreReadableGroups (map tree groups.now) }
    ensures { OnOk result (map sources.source_in rules.new ≡ map sources.source_in rules.old ++ reading.groups_sources 0 (map tree groups.now)) }
{
    let mut number: u32 = 0;
    let mut rest = groups;
    while let Some((group, others)) = rest.split_first() {
        push_rules(rules, alloc, number, items_at(entries_of(group), "rules"))?;
        number = next_number(number)?;
        rest = others;
    }
    Ok(())
}

fn next_number(number: u32) -> Result<u32, Memory>
    ensures { IfOk result (λ next. next ≡ suc number) }
{
    match number.checked_add(1) {
        Some(next) => Ok(next),
        None => Err(Memory),
    }
}

/// The rules of a file, in the order of its groups and of the rules in each.
pub fn all_sources(alloc: Global, file: &Node) -> Result<Seq<RuleInTree<'_>>, Memory>
    requires { reading.faults (tree file.now) ≡ [] }
    ensures { IfOk result (λ rs. map sources.source_in rs ≡ reading.sources (tree file.now)) }
{
    let mut rules = Seq::new(alloc);
    push_groups(&mut rules, alloc, items_at(entries_of(file), "groups"))?;
    Ok(rules)
}
