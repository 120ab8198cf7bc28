//! The text that a label has to have where it is followed, as far as selectors say so by `=`.
ghost use Rattle.std.specs.Prelude.{◌≡◌, ◌≤◌, length, map, IfOk, Some};
ghost use Rattle.std.specs.Option.{option_map};
ghost use Rattle.lf_ast.specs.Functions.{called_by, signature_of};
ghost use Rattle.lf_ast.specs.Rules.{rule_trees};
ghost use Rattle.lf_ast.specs.Selectors.{selected_name};
ghost use Rattle.lf_ast.specs.Tree.{parts_of, tree};
ghost use Rattle.lf_ast.specs.views.Walks.{chosen};
ghost use Rattle.lf_nodes.specs.views.Needed.{parts_needed};
ghost use Rattle.lf_uniform.specs.views.Required.{asked_of, if_any, required_by_call, required_by_effect, required_by_operator, required_text, text_of_parts};

use crate::absence::first_equal;
use crate::setting::Setting;
use lf_ast::walk::{Fold, Parts, fold_up};
use lf_ast::{Expr, Function, LabelEffect, Matcher, Op, selected_name};
use lf_base::{Memory, Text};
use lf_nodes::{at_most_one, both, parts_needed, the_only};
use std::alloc::Global;

/// Tells the text that a label has to have.
#[derive(Drop)]
struct Required<'a> {
    setting: &'a Setting<'a>,
    label: &'a Text,
}

/// The only text with which a label, which isn't the metric name, may be followed through an expression: one that a selector asks for by `=`, of series whose name no rule
/// records, where what it selects is followed. It isn't empty. Where none is told, any text may do.
pub fn required_text(
    alloc: Global,
    setting: &Setting,
    label: &Text,
    expr: &Expr,
) -> Result<Option<Text>, Memory>
    ensures { IfOk result (λ text. text ≡ required_text (rule_trees setting.now.rules) label.now (tree expr.now)) }
{
    fold_up(alloc, &Required { setting, label }, expr)
}

impl<'a> Required<'a> {
    /// The text that a selector asks for by `=`. Of what is recorded under a name none is told.
    fn asked(
        &self,
        alloc: Global,
        name: &Option<Text>,
        matchers: &[Matcher],
    ) -> Result<Option<Text>, Memory>
        ensures { IfOk result (λ text. text ≡ asked_of (rule_trees self.now.setting.now.rules) self.now.label.now (selected_name name.now matchers.now) matchers.now) }
    {
        match selected_name(name, matchers) {
            Some(name) => self.asked_of_named(alloc, name, matchers),
            None => if_any(alloc, first_equal(matchers, self.label.as_str())),
        }
    }

    /// The text that a selector of a name asks for.
    fn asked_of_named(
        &self,
        alloc: Global,
        name: &Text,
        matchers: &[Matcher],
    ) -> Result<Option<Text>, Memory>
        ensures { IfOk result (λ text. text ≡ asked_of (rule_trees self.now.setting.now.rules) self.now.label.now (Some name.now) matchers.now) }
    {
        if self.setting.is_recorded(name.as_str()) {
            return Ok(None);
        }
        if_any(alloc, first_equal(matchers, self.label.as_str()))
    }
}

impl<'a> Fold for Required<'a> {
    type Value = Option<Text>;

    type Note = Option<Function>;

    ghost use Rattle.std.specs.Prelude.{◌≡◌};
    ghost use Rattle.std.specs.Option.{option_map};
    ghost use Rattle.lf_ast.specs.Functions.{called_by, signature_of};
    ghost use Rattle.lf_ast.specs.Rules.{rule_trees};
    ghost use Rattle.lf_nodes.specs.views.Needed.{parts_needed};
    ghost use Rattle.lf_uniform.specs.views.Required.{required_text};

    ghost value = { λ r e. required_text (rule_trees r.setting.now.rules) r.label.now e };

    ghost needed = { λ r e. parts_needed e };

    ghost notes = { λ e function. option_map signature_of function ≡ called_by e };

    fn enter(&self, expr: &Expr) -> (Parts, Option<Function>) {
        let function = Function::called_by(expr);
        (parts_needed(expr, &function), function)
    }

    fn step(
        &self,
        alloc: Global,
        expr: &Expr,
        function: Option<Function>,
        values: Vec<Option<Text>>,
    ) -> Result<Option<Text>, Memory>
        requires function { option_map signature_of function ≡ called_by (tree expr.now) }
        requires values { values.items ≡ map (required_text (rule_trees self.now.setting.now.rules) self.now.label.now) (chosen (parts_needed (tree expr.now)) (parts_of (tree expr.now))) }
        ensures { IfOk result (λ made. made ≡ required_text (rule_trees self.now.setting.now.rules) self.now.label.now (tree expr.now)) }
    {
        from_parts(alloc, self, expr, function, values)
    }
}

/// The text that is required for an expression, from what it calls and what is required for its parts.
fn from_parts(
    alloc: Global,
    required: &Required,
    expr: &Expr,
    function: Option<Function>,
    parts: Vec<Option<Text>>,
) -> Result<Option<Text>, Memory>
    requires function { option_map signature_of function ≡ called_by (tree expr.now) }
    requires parts { parts.items ≡ map (required_text (rule_trees required.now.setting.now.rules) required.now.label.now) (chosen (parts_needed (tree expr.now)) (parts_of (tree expr.now))) }
    ensures { IfOk result (λ made. made ≡ required_text (rule_trees required.now.setting.now.rules) required.now.label.now (tree expr.now)) }
{
    match expr {
        Expr::Number { .. } => Ok(None),
        Expr::Str { .. } => Ok(None),
        Expr::Selector { name, matchers, .. } => required.asked(alloc, name, matchers.as_slice()),
        Expr::Subquery { .. } => Ok(the_only(parts)),
        Expr::Paren { .. } => Ok(the_only(parts)),
        Expr::Unary { .. } => Ok(the_only(parts)),
        Expr::Binary { op, .. } => {
            let (left, right) = both(parts);
            Ok(by_operator(*op, left, right))
        }
        Expr::Call { .. } => Ok(by_call(function, parts)),
        Expr::Aggregate { .. } => Ok(by_call(function, parts)),
    }
}

/// A text, if it isn't empty.
fn if_any(alloc: Global, text: &str) -> Result<Option<Text>, Memory>
    ensures { IfOk result (λ some. some ≡ if_any text.now) }
{
    if text == "" {
        return Ok(None);
    }
    Ok(Some(Text::of(alloc, text)?))
}

/// The text that is required for an operator, by those that are for its sides. Of `unless` the left side alone counts, and of `or` either side may do. Any other operator needs
/// both.
fn by_operator(op: Op, left: Option<Text>, right: Option<Text>) -> Option<Text>
    ensures { result ≡ required_by_operator op left right }
{
    match op {
        Op::Or => None,
        Op::Unless => left,
        Op::Add
        | Op::Subtract
        | Op::Multiply
        | Op::Divide
        | Op::Modulo
        | Op::Power
        | Op::Atan2
        | Op::Equal
        | Op::NotEqual
        | Op::LessOrEqual
        | Op::Less
        | Op::GreaterOrEqual
        | Op::Greater
        | Op::And => match left {
            Some(text) => Some(text),
            None => right,
        },
    }
}

/// The text that is required for a call of a function, or of none, by that for its operand.
fn by_call(function: Option<Function>, parts: Vec<Option<Text>>) -> Option<Text>
    requires { length parts.items ≤ 1 }
    ensures { result ≡ required_by_call (option_map signature_of function) (λ place. text_of_parts parts.items) }
{
    match function {
        Some(function) => by_effect(function.labels, text_of_parts(parts)),
        None => None,
    }
}

/// The text that is required for the only one of these parts, and none where there is no part.
fn text_of_parts(parts: Vec<Option<Text>>) -> Option<Text>
    requires { length parts.items ≤ 1 }
    ensures { result ≡ text_of_parts parts.items }
{
    at_most_one(parts)?
}

/// The text that is required for a function or an aggregation with this effect, by that for its operand, where the operand is followed.
fn by_effect(effect: LabelEffect, operand: Option<Text>) -> Option<Text>
    ensures { result ≡ required_by_effect effect operand }
{
    match effect {
        LabelEffect::Absent | LabelEffect::Bare => None,
        LabelEffect::Maps
        | LabelEffect::Keeps
        | LabelEffect::Groups
        | LabelEffect::CountValues
        | LabelEffect::Date
        | LabelEffect::LabelReplace
        | LabelEffect::LabelJoin
        | LabelEffect::HistogramQuantile => operand,
    }
}
