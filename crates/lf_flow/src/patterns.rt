//! Patterns that are matched once, before any row is computed.
ghost use Rattle.std.specs.Prelude.{◌≡◌, ◌<◌, ◌+◌, true, false, length, IfOk, OnOk};
ghost use Rattle.std.specs.Int.{div_ceil};
ghost use Rattle.lf_semantics.specs.Listing.{class_count, named_at};
ghost use Rattle.lf_semantics.specs.Passing.{is_plain};
ghost use Rattle.lf_classes.specs.views.PatternCache.{passing_row};
ghost use Rattle.lf_semantics.specs.RowTable.{text_of};
ghost use Rattle.lf_sizes.specs.Sizes.{size_of, width_of};
ghost use Rattle.lf_flow.specs.views.Budget.{TakesTries, TakesWords, bytes_of, tries_of};

use crate::budget::PatternBudget;
use crate::narrowing::narrow_label;
use lf_ast::walk::nodes_of;
use lf_ast::{Expr, Function, LabelEffect, MatchOp, Matcher, Rule, text_at};
use lf_base::{Memory, Seq, Text};
use lf_classes::{Row, Universe};
use lf_nodes::takes_pattern;
use lf_pattern::plain_alternatives;
use lf_sizes::{pattern_size, pattern_width};
use std::alloc::Global;

/// Finds which classes match each pattern of rules, and has the universe cache them, so that `flow` tries none again: the patterns behind `=~` and `!~`, and those of
/// `label_replace`. It changes nothing of what the universe is.
///
/// A run has a budget of tries: where the patterns need more of them, `Memory` is answered. A plain pattern needs none; the rows of plain patterns that are cached have
/// 32 MiB together at most, and one beyond them is looked up anew wherever it stands.
pub fn match_patterns(
    alloc: Global,
    universe: &mut Universe,
    rules: &Seq<Rule>,
) -> Result<(), Memory>
    ensures { universe.new ≡ universe.old }
{
    let mut budget = PatternBudget::new();
    for rule in rules.as_slice() {
        match_in(alloc, universe, &mut budget, &rule.expr)?;
    }
    Ok(())
}

/// Finds which classes match the patterns of an expression.
fn match_in(
    alloc: Global,
    universe: &mut Universe,
    budget: &mut PatternBudget,
    expr: &Expr,
) -> Result<(), Memory>
    ensures { universe.new ≡ universe.old }
{
    let nodes = nodes_of(alloc, expr)?;
    for node in nodes.as_slice() {
        match_node(alloc, universe, budget, node)?;
    }
    Ok(())
}

/// Finds which classes match the patterns of a selector's matchers, or that of a `label_replace`.
fn match_node(
    alloc: Global,
    universe: &mut Universe,
    budget: &mut PatternBudget,
    node: &Expr,
) -> Result<(), Memory>
    ensures { universe.new ≡ universe.old }
{
    match node {
        Expr::Selector { matchers, .. } => {
            match_each(alloc, universe, budget, matchers.as_slice())
        }
        Expr::Call { args, .. } if replaces_label(node) => {
            let pattern = Text::of(alloc, text_at(args.as_slice(), 4))?;
            let source = text_at(args.as_slice(), 3);
            match_pattern(alloc, universe, budget, source, MatchOp::Matches, &pattern)
        }
        _ => Ok(()),
    }
}

/// Whether an expression is a call of `label_replace`.
fn replaces_label(node: &Expr) -> bool {
    match Function::called_by(node) {
        Some(function) => matches!(function.labels, LabelEffect::LabelReplace),
        None => false,
    }
}

/// Finds which classes pass matchers with a pattern.
fn match_each(
    alloc: Global,
    universe: &mut Universe,
    budget: &mut PatternBudget,
    matchers: &[Matcher],
) -> Result<(), Memory>
    ensures { universe.new ≡ universe.old }
{
    for matcher in matchers {
        let label = matcher.label.as_str();
        match_pattern(alloc, universe, budget, label, matcher.op, &matcher.value)?;
    }
    Ok(())
}

/// Has the universe cache which classes of a label pass an operator and a pattern, unless it has, or it isn't worth a row.
fn match_pattern(
    alloc: Global,
    universe: &mut Universe,
    budget: &mut PatternBudget,
    name: &str,
    op: MatchOp,
    pattern: &Text,
) -> Result<(), Memory>
    ensures { universe.new ≡ universe.old }
{
    let label = universe.label_of(name);
    if !takes_pattern(op) || is_cached(universe, label, op, pattern) {
        return Ok(());
    }
    if reserve_row(alloc, universe, budget, label, pattern)? {
        let row = passing(alloc, universe, label, op, pattern)?;
        universe.cache_row(alloc, label, op, pattern.as_str(), row)?;
    }
    Ok(())
}

/// Whether the classes that pass an operator and a pattern are cached.
fn is_cached(universe: &Universe, label: u32, op: MatchOp, pattern: &Text) -> bool {
    universe.cached_row(label, op, pattern.as_str()).is_some()
}

/// Takes from the budget what the row of a pattern costs: the words of a plain one, and the tries of any other. It answers whether the row is to be made, which that of a
/// plain pattern isn't where there is no room left. `Memory` where there aren't as many tries left.
fn reserve_row(
    alloc: Global,
    universe: &Universe,
    budget: &mut PatternBudget,
    label: u32,
    pattern: &Text,
) -> Result<bool, Memory>
    requires { label < length universe.now.named }
    ensures plain { is_plain pattern.now ≡ true → IfOk result (λ made. TakesWords (div_ceil (class_count universe.now) 64) made budget.old budget.new) }
    ensures other { is_plain pattern.now ≡ false → IfOk result (λ made. made ≡ true) }
    ensures tries { is_plain pattern.now ≡ false → OnOk result (TakesTries (tries_of (size_of pattern.now) (width_of pattern.now) (length (named_at universe.now label) + 2) (bytes_of universe.now label)) budget.old budget.new) }
{
    if plain_alternatives(alloc, pattern)?.is_some() {
        return Ok(budget.take_words(universe.class_count().div_ceil(64)));
    }
    let size = pattern_size(alloc, pattern.as_str())?;
    let width = pattern_width(alloc, pattern.as_str())?;
    let bytes = text_bytes(universe, label);
    budget.take_tries(size, width, universe.classes(label), bytes)?;
    Ok(true)
}

/// How many bytes the texts of a label have together, but for 'any other text'.
fn text_bytes(universe: &Universe, label: u32) -> u64
    requires { label < length universe.now.named }
    ensures { result ≡ bytes_of universe.now label }
{
    let mut bytes: u64 = 0;
    for class in 0..universe.classes(label) {
        bytes = bytes.saturating_add(class_bytes(universe, label, class));
    }
    bytes
}

/// How many bytes the text of a class has; 'any other text' has none.
fn class_bytes(universe: &Universe, label: u32, class: u32) -> u64
    requires label { label < length universe.now.named }
    requires class { class < length (named_at universe.now label) + 2 }
    ensures { result ≡ length (text_of universe.now label class) }
{
    match universe.class_text(label, class) {
        Some(text) => text.len() as u64,
        None => 0,
    }
}

/// The classes of a label that pass an operator and a pattern, beside every class of each other label.
fn passing(
    alloc: Global,
    universe: &Universe,
    label: u32,
    op: MatchOp,
    pattern: &Text,
) -> Result<Row, Memory>
    requires { label < length universe.now.named }
    ensures { IfOk result (λ row. row ≡ passing_row universe.now label op pattern.now) }
{
    let _labels = universe.labels();
    let mut row = Row::full(alloc, universe)?;
    narrow_label(alloc, universe, label, op, pattern, &mut row)?;
    Ok(row)
}
