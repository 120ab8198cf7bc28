//! match/label: groupings and matches that name a label which no sample of their operand has.
//!
//! The rows of all parts of an expression are made in one walk, and so are their types: the time is linear in the number of parts. They are made only where some part
//! seeks a label, and the row of the rule is taken from them.
ghost use Rattle.std.specs.Prelude.{◌≡◌, ◌<◌, ◌∷◌, ◌&&◌, [], Some, None, false, length, map, slice_get, IfOk, IfSome, IfNone, OnOk};
ghost use Rattle.std.specs.List.{list_any};
ghost use Rattle.lf_laws.specs.Gaining.{OfSome};
ghost use Rattle.lf_ast.specs.Functions.{aggregation};
ghost use Rattle.lf_ast.specs.Rules.{rule_tree};
ghost use Rattle.lf_ast.specs.Tree.{Tree, parts_of, tree, nodes};
ghost use Rattle.lf_ast.specs.Types.{is_vector, names_at};
ghost use Rattle.lf_ast.specs.views.Walks.{trees_at};
ghost use Rattle.lf_semantics.specs.ClassRows.{HasShape};
ghost use Rattle.lf_semantics.specs.Environments.{IsEnvironment};
ghost use Rattle.lf_semantics.specs.Listing.{IsListing};
ghost use Rattle.lf_semantics.specs.Parts.{operand_place, type_by_form};
ghost use Rattle.lf_semantics.specs.RowTable.{Environment, row_of, scraped_row};
ghost use Rattle.lf_checks.specs.MatchLabel.{IsFound};
ghost use Rattle.lf_checks.specs.views.Adding.{Adds};
ghost use Rattle.lf_checks.specs.views.Conditions.{condition_of};
ghost use Rattle.lf_checks.specs.views.Shown.{ListsAlone};
ghost use Rattle.lf_checks.specs.views.Sought.{IsNever, IsOfMatch, IsOfPart, IsOfRow, IsOfSides, for_left, for_right, labels_by, seeks_labels};

use crate::alert_comparison::{Condition, part_conditions};
use crate::case::Case;
use crate::judged::is_impossible;
use crate::telling::tell_if;
use lf_ast::{Agg, Expr, Finding, Function, Group, Grouping, Matching, Name, Rule, is_vector};
use lf_base::{Memory, Seq};
use lf_classes::{Row, Universe};
use lf_flow::{Env, part_rows_with};
use lf_parts::by_parts;
use std::alloc::Global;

/// The rows of a rule's expression and of all parts in it, where they were made before, or one of these parts seeks a label. Elsewhere they aren't made. The row of all scraped
/// series is taken where it is at hand.
pub(crate) fn sought_rows(
    alloc: Global,
    universe: &Universe,
    env: &Env,
    scraped: Option<&Row>,
    rule: &Rule,
    parts: &[&Expr],
    made: Option<Vec<Row>>,
) -> Result<Option<Vec<Row>>, Memory>
    requires env { IsEnvironment universe.now env.now }
    requires scraped { IfSome scraped (λ row. row.now ≡ scraped_row universe.now env.now) }
    requires parts { trees_at parts.now ≡ nodes (rule_tree rule.now).expr }
    requires made { IfSome made (λ all. all.items ≡ map (row_of universe.now env.now) (nodes (rule_tree rule.now).expr)) }
    ensures some { IfOk result (λ rows. IfSome rows (λ all. all.items ≡ map (row_of universe.now env.now) (nodes (rule_tree rule.now).expr))) }
    ensures none { IfOk result (λ rows. IfNone rows (list_any (λ part. seeks_labels (tree part.now)) parts.now ≡ false)) }
{
    if made.is_some() || !any_seeks(parts) {
        return Ok(made);
    }
    let rows = part_rows_with(alloc, universe, env, scraped, &rule.expr)?;
    Ok(Some(rows))
}

/// What the check finds of a rule, by the rows of its expression and of all parts in it, which may be left out where no part seeks a label.
pub(crate) fn match_label(
    alloc: Global,
    universe: &Universe,
    rule: &Rule,
    parts: &[&Expr],
    rows: Option<Vec<Row>>,
) -> Result<Vec<Finding>, Memory>
    requires listing { IsListing universe.now }
    requires parts { trees_at parts.now ≡ nodes (rule_tree rule.now).expr }
    requires some { IfSome rows (λ all. (env : Environment) × IsEnvironment universe.now env × (all.items ≡ map (row_of universe.now env) (nodes (rule_tree rule.now).expr))) }
    requires none { IfNone rows (list_any (λ part. seeks_labels (tree part.now)) parts.now ≡ false) }
    ensures { (env : Environment) → IfSome rows (λ all. all.items ≡ map (row_of universe.now env) (nodes (rule_tree rule.now).expr)) → IfOk result (λ found. ListsAlone (IsFound universe.now env (rule_tree rule.now)) found.items) }
{
    match rows {
        Some(rows) => judge_if_sought(alloc, universe, rule, parts, rows),
        None => Ok(Vec::new(alloc)),
    }
}

/// What the check finds of a rule, by the rows of its expression and of all parts in it: nothing where no part seeks a label.
fn judge_if_sought(
    alloc: Global,
    universe: &Universe,
    rule: &Rule,
    parts: &[&Expr],
    rows: Vec<Row>,
) -> Result<Vec<Finding>, Memory>
    requires listing { IsListing universe.now }
    requires parts { trees_at parts.now ≡ nodes (rule_tree rule.now).expr }
    requires rows { (env : Environment) × IsEnvironment universe.now env × (rows.items ≡ map (row_of universe.now env) (nodes (rule_tree rule.now).expr)) }
    ensures { (env : Environment) → rows.items ≡ map (row_of universe.now env) (nodes (rule_tree rule.now).expr) → IfOk result (λ found. ListsAlone (IsFound universe.now env (rule_tree rule.now)) found.items) }
{
    if any_seeks(parts) {
        judge_nodes(alloc, universe, &rule.expr, parts, rows)
    } else {
        Ok(Vec::new(alloc))
    }
}

/// Whether one of these parts seeks a label.
fn any_seeks(parts: &[&Expr]) -> bool
    ensures { result ≡ list_any (λ part. seeks_labels (tree part.now)) parts.now }
{
    parts.iter().any(|part| seeks_labels(part))
}

/// Whether a part seeks labels: an aggregation those of `by`, and an operator those of its match.
fn seeks_labels(part: &Expr) -> bool
    ensures { result ≡ seeks_labels (tree part.now) }
{
    match part {
        Expr::Aggregate { grouping, .. } => !labels_by(grouping).is_empty(),
        Expr::Binary { modifier, .. } => {
            !names_at(&modifier.on).is_empty() || !modifier.include.as_slice().is_empty()
        }
        _ => false,
    }
}

/// What is told of the labels that an expression and the parts in it seek on their operands, by the rows of all parts.
fn judge_nodes(
    alloc: Global,
    universe: &Universe,
    expr: &Expr,
    parts: &[&Expr],
    rows: Vec<Row>,
) -> Result<Vec<Finding>, Memory>
    requires listing { IsListing universe.now }
    requires parts { trees_at parts.now ≡ nodes (tree expr.now) }
    requires rows { (env : Environment) × IsEnvironment universe.now env × (rows.items ≡ map (row_of universe.now env) (nodes (tree expr.now))) }
    ensures { (env : Environment) → rows.items ≡ map (row_of universe.now env) (nodes (tree expr.now)) → IfOk result (λ found. Adds (OfSome (IsOfPart universe.now env) (nodes (tree expr.now))) [] found.items) }
{
    let rows = by_parts(alloc, expr, rows)?;
    let conditions = conditions_by_parts(alloc, expr)?;
    let parts_rows = rows.as_slice();
    let parts_conditions = conditions.as_slice();
    judge_parts(alloc, universe, parts, parts_rows, parts_conditions)
}

/// What is told of the labels that parts seek on their operands, by the rows of the own parts of each, and by what these are.
fn judge_parts(
    alloc: Global,
    universe: &Universe,
    parts: &[&Expr],
    rows: &[Seq<Row>],
    conditions: &[Seq<Condition>],
) -> Result<Vec<Finding>, Memory>
    requires listing { IsListing universe.now }
    requires rows { (env : Environment) × IsEnvironment universe.now env × (rows.now ≡ map (λ x. map (row_of universe.now env) (parts_of x)) (trees_at parts.now)) }
    requires conditions { conditions.now ≡ map (λ x. map condition_of (parts_of x)) (trees_at parts.now) }
    ensures { (env : Environment) → rows.now ≡ map (λ x. map (row_of universe.now env) (parts_of x)) (trees_at parts.now) → IfOk result (λ found. Adds (OfSome (IsOfPart universe.now env) (trees_at parts.now)) [] found.items) }
{
    let mut found = Vec::new(alloc);
    for k in 0..parts.len() {
        let part = node_at(parts, k);
        let own_rows = group_at(rows, k);
        let own_conditions = group_at(conditions, k);
        judge_part(alloc, universe, part, own_rows, own_conditions, &mut found)?;
    }
    Ok(found)
}

/// For an expression and each part in it what its own parts are by their form.
fn conditions_by_parts(alloc: Global, expr: &Expr) -> Result<Vec<Seq<Condition>>, Memory>
    ensures { IfOk result (λ groups. groups.items ≡ map (λ x. map condition_of (parts_of x)) (nodes (tree expr.now))) }
{
    let conditions = part_conditions(alloc, expr)?;
    by_parts(alloc, expr, conditions)
}

/// The expression at a number.
fn node_at<'a>(nodes: &[&'a Expr], k: usize) -> &'a Expr
    requires { k < length nodes.now }
    ensures { slice_get (trees_at nodes.now) k ≡ Some (tree result.now) }
{
    nodes[k]
}

/// The values at a number.
fn group_at<T>(groups: &[Seq<T>], k: usize) -> &[T]
    requires { k < length groups.now }
    ensures { slice_get groups.entry.now k ≡ Some result.now }
{
    groups[k].as_slice()
}

/// Tells of the labels that a part seeks on its operands, by the rows of its own parts and by what they are.
fn judge_part(
    alloc: Global,
    universe: &Universe,
    part: &Expr,
    rows: &[Row],
    conditions: &[Condition],
    found: &mut Vec<Finding>,
) -> Result<(), Memory>
    requires listing { IsListing universe.now }
    requires rows { (env : Environment) × IsEnvironment universe.now env × (rows.now ≡ map (row_of universe.now env) (parts_of (tree part.now))) }
    requires conditions { conditions.now ≡ map condition_of (parts_of (tree part.now)) }
    ensures { (env : Environment) → rows.now ≡ map (row_of universe.now env) (parts_of (tree part.now)) → OnOk result (Adds (IsOfPart universe.now env (tree part.now)) found.old.items found.new.items) }
{
    match part {
        Expr::Aggregate { op, grouping, .. } => match row_at(rows, operand_place(*op)) {
            Some(row) => judge_operand(alloc, universe, row, labels_by(grouping), &[], found),
            None => Ok(()),
        },
        Expr::Binary { modifier, .. } => {
            let vectors = are_vectors(conditions);
            judge_match(
                alloc, universe, modifier, vectors, &rows[0], &rows[1], found,
            )
        }
        _ => Ok(()),
    }
}

/// The row at a place, if there is one.
fn row_at(rows: &[Row], place: usize) -> Option<&Row>
    ensures some { IfSome result (λ row. slice_get rows.entry.now place ≡ Some row.now) }
    ensures none { IfNone result (slice_get rows.entry.now place ≡ None) }
{
    rows.get(place)
}

/// The labels of `by`, if it is there.
fn labels_by(grouping: &Grouping) -> &[Name]
    ensures { result.now ≡ labels_by grouping.now }
{
    match grouping {
        Grouping::By { labels } => labels.as_slice(),
        Grouping::None => &[],
        Grouping::Without { .. } => &[],
    }
}

/// Which argument an aggregation groups, counted from 0.
fn operand_place(op: Agg) -> usize
    ensures { result ≡ operand_place (aggregation op) }
{
    lf_nodes::operand_place(Function::of_aggregation(op).takes)
}

/// Whether both sides of an operator are vectors, by what they are.
fn are_vectors(sides: &[Condition]) -> bool
    requires { length sides.now ≡ 2 }
    ensures { (left right : Tree) → sides.now ≡ condition_of left ∷ condition_of right ∷ [] → result ≡ (is_vector (type_by_form left) && is_vector (type_by_form right)) }
{
    is_vector(sides[0].form) && is_vector(sides[1].form)
}

/// Tells of the labels that a match seeks on its sides, if these are vectors.
fn judge_match(
    alloc: Global,
    universe: &Universe,
    matching: &Matching,
    vectors: bool,
    left: &Row,
    right: &Row,
    found: &mut Vec<Finding>,
) -> Result<(), Memory>
    requires left { HasShape universe.now left.now }
    requires right { HasShape universe.now right.now }
    ensures { OnOk result (Adds (IsOfMatch universe.now vectors matching.now left.now right.now) found.old.items found.new.items) }
{
    if !vectors {
        return Ok(());
    }
    judge_sides(alloc, universe, matching, left, right, found)
}

/// Tells of the labels that a match seeks on its sides: those of `on` on both, and those of a group list on the one side.
fn judge_sides(
    alloc: Global,
    universe: &Universe,
    matching: &Matching,
    left: &Row,
    right: &Row,
    found: &mut Vec<Finding>,
) -> Result<(), Memory>
    requires left { HasShape universe.now left.now }
    requires right { HasShape universe.now right.now }
    ensures { OnOk result (Adds (IsOfSides universe.now matching.now left.now right.now) found.old.items found.new.items) }
{
    let on = names_at(&matching.on);
    judge_operand(alloc, universe, left, on, for_left(matching), found)?;
    judge_operand(alloc, universe, right, on, for_right(matching), found)
}

/// The names of a list, if there is one.
fn names_at(names: &Option<Seq<Name>>) -> &[Name]
    ensures { result.now ≡ names_at names.now }
{
    match names {
        Some(names) => names.as_slice(),
        None => &[],
    }
}

/// The labels of a group list that are sought on the left side.
fn for_left(matching: &Matching) -> &[Name]
    ensures { result.now ≡ for_left matching.now.group matching.now.include }
{
    match matching.group {
        Group::Right => matching.include.as_slice(),
        Group::One | Group::Left => &[],
    }
}

/// The labels of a group list that are sought on the right side.
fn for_right(matching: &Matching) -> &[Name]
    ensures { result.now ≡ for_right matching.now.group matching.now.include }
{
    match matching.group {
        Group::Left => matching.include.as_slice(),
        Group::One | Group::Right => &[],
    }
}

/// Tells which of two lists of labels are never on an operand, by its row.
fn judge_operand(
    alloc: Global,
    universe: &Universe,
    row: &Row,
    labels: &[Name],
    others: &[Name],
    found: &mut Vec<Finding>,
) -> Result<(), Memory>
    requires { HasShape universe.now row.now }
    ensures { OnOk result (Adds (IsOfRow universe.now row.now labels.now others.now) found.old.items found.new.items) }
{
    judge_labels(alloc, universe, row, labels, found)?;
    judge_labels(alloc, universe, row, others, found)
}

/// Tells which labels are never on the samples of a row.
fn judge_labels(
    alloc: Global,
    universe: &Universe,
    row: &Row,
    labels: &[Name],
    found: &mut Vec<Finding>,
) -> Result<(), Memory>
    requires { HasShape universe.now row.now }
    ensures { OnOk result (Adds (OfSome (IsNever universe.now row.now) labels.now) found.old.items found.new.items) }
{
    for label in labels {
        judge_label(alloc, universe, row, label, found)?;
    }
    Ok(())
}

/// Tells of a label that is never on the samples of a row.
fn judge_label(
    alloc: Global,
    universe: &Universe,
    row: &Row,
    label: &Name,
    found: &mut Vec<Finding>,
) -> Result<(), Memory>
    requires { HasShape universe.now row.now }
    ensures { OnOk result (Adds (IsNever universe.now row.now label.now) found.old.items found.new.items) }
{
    let name = label.text.as_str();
    let never = is_impossible(universe, row, name);
    tell_if(alloc, never, Case::NeverOnOperand, label.span, name, found)
}
