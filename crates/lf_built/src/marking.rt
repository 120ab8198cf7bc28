//! The labels that aggregations, operators and rules treat alike, marked once, so that no world looks each label up in their lists of names.
ghost use Rattle.std.specs.Prelude.{◌≡◌, map, IfOk};
ghost use Rattle.lf_ast.specs.Rules.{RuleTree, rule_trees};
ghost use Rattle.lf_ast.specs.Tree.{nodes, tree, trees};
ghost use Rattle.lf_ast.specs.Functions.{called_by};
ghost use Rattle.lf_built.specs.views.Marking.{call_lost, effect_lost, lost_at, marks_at, set_by, side_mark, sides_at};

use lf_ast::walk::nodes_of;
use lf_ast::{Expr, Function, Grouping, LabelChoice, LabelEffect, Matching, Op, Rule, text_at};
use lf_base::{Memory, Seq, Text};
use lf_candidates::{OutsideCount, OutsideGroup, SetByRule, left_gives, right_gives};
use lf_nodes::signs;
use std::alloc::Global;

/// What is marked of one label for an operator: whether the label is of the signature, and whether the left and the right side give it to the result.
#[derive(Drop)]
pub struct SideMark {
    pub signed: bool,
    pub left: bool,
    pub right: bool,
}

/// What is marked of each label for an expression.
#[derive(Drop)]
pub struct NodeMarks {
    /// Whether the operand doesn't get the label, where it goes by a group. Nothing is marked for any other expression.
    pub lost: Seq<bool>,
    /// What an operator makes of the label. Nothing is marked for any other expression.
    pub sides: Seq<SideMark>,
}

/// For each rule the labels that it sets, marked. The names are those of the labels, in their order.
pub fn set_by_rules(alloc: Global, names: &[Text], rules: &[Rule]) -> Result<Vec<Seq<bool>>, Memory>
    ensures { IfOk result (λ set. set.items ≡ map (set_by names.now) (rule_trees rules.now)) }
{
    let mut set = Vec::new(alloc);
    for k in 0..rules.len() {
        let rule = &rules[k];
        let labels = rule.labels.as_slice();
        let marks = chosen(alloc, names, &SetByRule { labels })?;
        set.push(marks)?;
    }
    Ok(set)
}

/// For each rule what is marked for its expression and for each part in it. The names are those of the labels, in their order.
pub fn marks_in_rules(
    alloc: Global,
    names: &[Text],
    rules: &[Rule],
) -> Result<Vec<Seq<NodeMarks>>, Memory>
    ensures { IfOk result (λ all. all.items ≡ map (λ (r : RuleTree). map (marks_at names.now) (nodes r.expr)) (rule_trees rules.now)) }
{
    let mut all = Vec::new(alloc);
    for k in 0..rules.len() {
        let rule = &rules[k];
        let marks = marks_in(alloc, names, &rule.expr)?;
        all.push(marks)?;
    }
    Ok(all)
}

/// What is marked for an expression and for each part in it, in the order of the text, each before its own parts.
fn marks_in(alloc: Global, names: &[Text], expr: &Expr) -> Result<Seq<NodeMarks>, Memory>
    ensures { IfOk result (λ all. all ≡ map (marks_at names.now) (nodes (tree expr.now))) }
{
    let nodes = nodes_of(alloc, expr)?;
    let mut all = Seq::with_capacity(alloc, nodes.len())?;
    for k in 0..nodes.len() {
        let node = nodes[k];
        let lost = lost_by(alloc, names, node)?;
        let sides = sides_of(alloc, names, node)?;
        all.push(NodeMarks { lost, sides })?;
    }
    Ok(all)
}

/// What an operator makes of each label. Nothing is marked for any other expression.
fn sides_of(alloc: Global, names: &[Text], expr: &Expr) -> Result<Seq<SideMark>, Memory>
    ensures { IfOk result (λ marks. marks ≡ sides_at names.now (tree expr.now)) }
{
    match expr {
        Expr::Binary { op, modifier, .. } => side_marks(alloc, names, *op, modifier),
        Expr::Number { .. }
        | Expr::Str { .. }
        | Expr::Selector { .. }
        | Expr::Subquery { .. }
        | Expr::Paren { .. }
        | Expr::Unary { .. }
        | Expr::Call { .. }
        | Expr::Aggregate { .. } => Ok(Seq::new(alloc)),
    }
}

/// The same of an operator with this matching.
fn side_marks(
    alloc: Global,
    names: &[Text],
    op: Op,
    matching: &Matching,
) -> Result<Seq<SideMark>, Memory>
    ensures { IfOk result (λ marks. marks ≡ map (side_mark op matching.now) names.now) }
{
    let mut marks = Seq::with_capacity(alloc, names.len())?;
    for label in 0..names.len() {
        marks.push(side_mark(op, matching, names[label].as_str()))?;
    }
    Ok(marks)
}

/// The same of one label.
fn side_mark(op: Op, matching: &Matching, label: &str) -> SideMark
    ensures { result ≡ side_mark op matching.now label.now }
{
    SideMark {
        signed: signs(matching, label),
        left: left_gives(op, matching, label),
        right: right_gives(op, matching, label),
    }
}

/// The labels that the operand of an expression doesn't get, where it goes by a group: for each label whether it is one. Nothing is marked for any other expression.
fn lost_by(alloc: Global, names: &[Text], expr: &Expr) -> Result<Seq<bool>, Memory>
    ensures { IfOk result (λ marks. marks ≡ lost_at names.now (tree expr.now)) }
{
    match expr {
        Expr::Call { args, .. } => {
            lost_by_call(alloc, names, expr, &Grouping::None, args.as_slice())
        }
        Expr::Aggregate { grouping, args, .. } => {
            lost_by_call(alloc, names, expr, grouping, args.as_slice())
        }
        Expr::Number { .. }
        | Expr::Str { .. }
        | Expr::Selector { .. }
        | Expr::Subquery { .. }
        | Expr::Paren { .. }
        | Expr::Unary { .. }
        | Expr::Binary { .. } => Ok(Seq::new(alloc)),
    }
}

/// The same of a call or an aggregation with these arguments, which goes by this group.
fn lost_by_call(
    alloc: Global,
    names: &[Text],
    expr: &Expr,
    grouping: &Grouping,
    args: &[Expr],
) -> Result<Seq<bool>, Memory>
    ensures { IfOk result (λ marks. marks ≡ call_lost names.now (called_by (tree expr.now)) grouping.now (trees args.now)) }
{
    match Function::called_by(expr) {
        Some(function) => lost_by_effect(alloc, names, function.labels, grouping, args),
        None => Ok(Seq::new(alloc)),
    }
}

/// The same by what a function or an aggregation does to labels.
fn lost_by_effect(
    alloc: Global,
    names: &[Text],
    effect: LabelEffect,
    grouping: &Grouping,
    args: &[Expr],
) -> Result<Seq<bool>, Memory>
    ensures { IfOk result (λ marks. marks ≡ effect_lost names.now effect grouping.now (trees args.now)) }
{
    match effect {
        LabelEffect::Groups => chosen(alloc, names, &OutsideGroup { grouping }),
        LabelEffect::CountValues => {
            let name = text_at(args, 0);
            chosen(alloc, names, &OutsideCount { name, grouping })
        }
        LabelEffect::Maps
        | LabelEffect::Keeps
        | LabelEffect::Date
        | LabelEffect::Absent
        | LabelEffect::LabelReplace
        | LabelEffect::LabelJoin
        | LabelEffect::HistogramQuantile
        | LabelEffect::Bare => Ok(Seq::new(alloc)),
    }
}

/// For each label whether a choice chooses it.
fn chosen<C: LabelChoice>(alloc: Global, names: &[Text], choice: &C) -> Result<Seq<bool>, Memory>
    ensures { IfOk result (λ marks. marks ≡ map (C.chooses choice.now) names.now) }
{
    let mut marks = Seq::new(alloc);
    for label in 0..names.len() {
        marks.push(choice.chooses(names[label].as_str()))?;
    }
    Ok(marks)
}
