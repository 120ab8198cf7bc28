//! Nodes by their rows: block sequences and block mappings, one in another.
ghost use Rattle.std.specs.Prelude.{◌≡◌, ℕ, suc, ◌+◌, ◌<◌, ◌≤◌, ◌^◌, List, map, true, Some, IfOk};
ghost use Rattle.std.specs.Str.{IsCharBoundary};
ghost use Rattle.lf_base.specs.Answers.{AnswersAs};
ghost use Rattle.lf_scalar.specs.Cells.{cell, cells};
ghost use Rattle.lf_yaml.specs.Rows.{indent as indent_of};
ghost use Rattle.lf_yaml.specs.Heads.{is_item as is_item_of};
ghost use Rattle.lf_yaml.specs.Tree.{tree, pair, items_of, entries_of};
ghost use Rattle.lf_yaml.specs.reading.Trees.{node_at, item_value as item_value_of, entry_at};
ghost use Rattle.lf_yaml.specs.views.Shown.{shown};
ghost use Rattle.lf_yaml.specs.views.Cursor.{rows_after, IsRowOf};
ghost use Rattle.lf_yaml.specs.views.Headed.{headed};
ghost use Rattle.lf_yaml.specs.views.KeySets.{HasKeys};
ghost use Rattle.lf_yaml.specs.reading.BlockTurns.{inner, owned, values, run_items, run_entries, one_entry as one_entry_of, IsEntryRow};

use crate::below::{left_behind, left_of_entry, row_below, row_beside, tab_behind};
use crate::block_turns::{begins_block, entry_on, next_entry, next_item};
use crate::entries::EntryRow;
use crate::head::{first_fault, indent, is_item};
use crate::key_set::KeySet;
use crate::made::{empty, entry_node, list_node, map_node};
use crate::new_keys::new_key;
use crate::node::{Entry, Node};
use crate::row::ContentLine;
use crate::row_value::value;
use crate::source::YamlSource;
use lf_base::{Kind, Refusal, Seq};

/// The node that begins on a row of a file, and where the line behind it begins. The lines behind the row's own begin at `next`.
///
/// `depth` is how many collections may stand one in another from here on. The later lines of a plain or block scalar have at least `above` spaces. `own` says that the node is a
/// sequence at the indent of the mapping around it.
#[cycle(read)]
pub fn node(
    source: YamlSource<'_>,
    depth: u32,
    own: bool,
    above: u32,
    row: ContentLine<'_>,
    next: usize,
) -> Result<(Node, usize), Refusal>
    requires row { IsRowOf source.bytes.now row }
    requires start { IsCharBoundary source.bytes.now next }
    requires above { above ≤ 2 ^ 31 }
    ensures gives { AnswersAs (λ x. (tree x.0, rows_after source.entry.bytes.now x.1)) result (node_at source.entry.bytes.now depth own above (shown row.entry) (rows_after source.entry.bytes.now next)) }
    ensures start { IfOk result (λ x. IsCharBoundary source.entry.bytes.now x.1) }
    ensures further { IfOk result (λ x. next ≤ x.1) }
{
    if is_item(row) {
        if depth == 0 {
            return Err(first_fault(Kind::TooDeep, row));
        }
        let (found, left) = items(source, depth - 1, own, row, next)?;
        return Ok((list_node(row.at, found), left));
    }
    match entry_on(row, next) {
        Some(entry) => {
            if depth == 0 {
                return Err(first_fault(Kind::TooDeep, row));
            }
            let (found, left) = entries(source, depth - 1, entry)?;
            Ok((map_node(row.at, found), left))
        }
        None => value(source, row, next, above, depth),
    }
}

/// The value of an item at an indent. What stands behind its sign on the row may itself be an item or an entry; else the next row decides.
#[cycle(read)]
fn item_value(
    source: YamlSource<'_>,
    depth: u32,
    row: ContentLine<'_>,
    next: usize,
) -> Result<(Node, usize), Refusal>
    requires row { IsRowOf source.bytes.now row }
    requires start { IsCharBoundary source.bytes.now next }
    requires item { is_item_of (shown row) ≡ true }
    ensures gives { AnswersAs (λ x. (tree x.0, rows_after source.entry.bytes.now x.1)) result (item_value_of (inner source.entry.bytes.now depth) (indent_of (shown row.entry)) (shown row.entry) (rows_after source.entry.bytes.now next)) }
    ensures start { IfOk result (λ x. IsCharBoundary source.entry.bytes.now x.1) }
    ensures further { IfOk result (λ x. next ≤ x.1) }
{
    let column = indent(row);
    if let Some(refusal) = tab_behind(row) {
        return Err(refusal);
    }
    match left_behind(row, 0) {
        Some(left) => node(source, depth, false, column + 1, left, next),
        None => match row_below(source, column, next) {
            Some((below, behind)) => node(source, depth, false, column + 1, below, behind),
            None => Ok((empty(source.alloc, row.at + 1)?, next)),
        },
    }
}

/// The items of a sequence from a row on, and where the line behind them begins.
#[cycle(read)]
fn items(
    source: YamlSource<'_>,
    depth: u32,
    own: bool,
    row: ContentLine<'_>,
    next: usize,
) -> Result<(Seq<Node>, usize), Refusal>
    requires row { IsRowOf source.bytes.now row }
    requires start { IsCharBoundary source.bytes.now next }
    requires item { is_item_of (shown row) ≡ true }
    ensures gives { AnswersAs (λ x. (items_of (map tree x.0), rows_after source.entry.bytes.now x.1)) result (run_items source.entry.bytes.now depth own (indent_of (shown row.entry)) (shown row.entry) (rows_after source.entry.bytes.now next)) }
    ensures start { IfOk result (λ x. IsCharBoundary source.entry.bytes.now x.1) }
    ensures further { IfOk result (λ x. next ≤ x.1) }
{
    let column = indent(row);
    let mut found = Seq::new(source.alloc);
    let (first, mut left) = item_value(source, depth, row, next)?;
    found.push(first)?;
    'rows: while let Some((row, behind)) = next_item(source, own, column, left)? {
        let (item, rest) = item_value(source, depth, row, behind)?;
        found.push(item)?;
        left = rest;
    }
    Ok((found, left))
}

/// A scalar or a flow collection on the row of its key. An item or an entry may not begin there.
fn value_here(
    source: YamlSource<'_>,
    depth: u32,
    column: u32,
    left: ContentLine<'_>,
    next: usize,
) -> Result<(Node, usize), Refusal>
    requires row { IsRowOf source.bytes.now left }
    requires start { IsCharBoundary source.bytes.now next }
    requires column { column < 2 ^ 31 }
    ensures gives { AnswersAs (λ x. (tree x.0, rows_after source.entry.bytes.now x.1)) result (entry_at source.entry.bytes.now depth (owned source.entry.bytes.now depth) column 0 (rows_after source.entry.bytes.now next) (Some (shown left.entry))) }
    ensures start { IfOk result (λ x. IsCharBoundary source.entry.bytes.now x.1) }
    ensures further { IfOk result (λ x. next ≤ x.1) }
{
    if begins_block(left) {
        Err(first_fault(Kind::NotANode, left))
    } else {
        value(source, left, next, column + 1, depth)
    }
}

/// The value of an entry of a mapping at an indent. What stands behind its `:` on the row is a scalar or a flow collection; else the next row decides.
#[cycle(read)]
fn entry_value(
    source: YamlSource<'_>,
    depth: u32,
    column: u32,
    entry: EntryRow<'_>,
) -> Result<(Node, usize), Refusal>
    requires entry { IsEntryRow source.bytes.now entry }
    requires column { column < 2 ^ 31 }
    ensures gives { AnswersAs (λ x. (tree x.0, rows_after source.entry.bytes.now x.1)) result (values source.entry.bytes.now depth column entry.entry.row.begin (cell 58 entry.entry.head.colon) (cells (suc entry.entry.head.colon) entry.entry.head.behind.now) (rows_after source.entry.bytes.now entry.entry.behind)) }
    ensures start { IfOk result (λ x. IsCharBoundary source.entry.bytes.now x.1) }
    ensures further { IfOk result (λ x. entry.entry.behind ≤ x.1) }
{
    let next = entry.behind;
    match left_of_entry(entry) {
        Some(left) => value_here(source, depth, column, left, next),
        None => match row_beside(source, column, next) {
            Some(below) => node(
                source,
                depth,
                below.own,
                column + 1,
                below.row,
                below.behind,
            ),
            None => Ok((empty(source.alloc, entry.head.colon + 1)?, next)),
        },
    }
}

/// An entry of a mapping at an indent, whose key is none of those before.
#[cycle(read)]
fn one_entry(
    source: YamlSource<'_>,
    depth: u32,
    column: u32,
    keys: &KeySet,
    entry: EntryRow<'_>,
) -> Result<(Entry, usize), Refusal>
    requires entry { IsEntryRow source.bytes.now entry }
    requires column { column < 2 ^ 31 }
    ensures gives { (texts : List (List ℕ)) → HasKeys keys.now texts → AnswersAs (λ x. (pair x.0, rows_after source.entry.bytes.now x.1)) result (one_entry_of (values source.entry.bytes.now depth column) texts (shown entry.entry.row) (headed entry.entry.row.at entry.entry.row.text.now entry.entry.head) (rows_after source.entry.bytes.now entry.entry.behind)) }
    ensures start { IfOk result (λ x. IsCharBoundary source.entry.bytes.now x.1) }
    ensures further { IfOk result (λ x. entry.entry.behind ≤ x.1) }
{
    let key = new_key(source, keys, entry)?;
    let (value, left) = entry_value(source, depth, column, entry)?;
    Ok((entry_node(key, value), left))
}

/// The entries of a mapping from one on, and where the line behind them begins.
#[cycle(read)]
fn entries(
    source: YamlSource<'_>,
    depth: u32,
    entry: EntryRow<'_>,
) -> Result<(Seq<Entry>, usize), Refusal>
    requires entry { IsEntryRow source.bytes.now entry }
    ensures gives { AnswersAs (λ x. (entries_of (map pair x.0), rows_after source.entry.bytes.now x.1)) result (run_entries source.entry.bytes.now depth (indent_of (shown entry.entry.row)) (shown entry.entry.row) (rows_after source.entry.bytes.now entry.entry.behind)) }
    ensures start { IfOk result (λ x. IsCharBoundary source.entry.bytes.now x.1) }
    ensures further { IfOk result (λ x. entry.entry.behind ≤ x.1) }
{
    let column = indent(entry.row);
    // Most mappings of a rule file have two entries.
    let mut found = Seq::with_capacity(source.alloc, 2)?;
    let mut keys = KeySet::new(source.alloc);
    let (first, mut left) = one_entry(source, depth, column, &keys, entry)?;
    keys.add(first.key.text.as_str())?;
    found.push(first)?;
    'rows: while let Some(row) = next_entry(source, column, left)? {
        let (entry, rest) = one_entry(source, depth, column, &keys, row)?;
        keys.add(entry.key.text.as_str())?;
        found.push(entry)?;
        left = rest;
    }
    Ok((found, left))
}
