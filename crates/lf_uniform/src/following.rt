//! A label followed through an expression.
ghost use Rattle.std.specs.Prelude.{◌≡◌, map, IfOk, List};
ghost use Rattle.std.specs.Option.{option_map};
ghost use Rattle.lf_ast.specs.Functions.{called_by, signature_of};
ghost use Rattle.lf_ast.specs.Rules.{rule_trees};
ghost use Rattle.lf_ast.specs.Selectors.{selected_name};
ghost use Rattle.lf_ast.specs.Tree.{parts_of, tree, trees};
ghost use Rattle.lf_ast.specs.Types.{is_scalar, joined, selected};
ghost use Rattle.lf_ast.specs.declared.expr.Matcher.{Matcher};
ghost use Rattle.lf_ast.specs.views.Walks.{chosen};
ghost use Rattle.lf_semantics.specs.Parts.{given_by, type_by_form};
ghost use Rattle.lf_trials.specs.Follow.{follow, follow_binary, follow_name, if_it_passes, nameless_if, on_series, passes_on_label};
ghost use Rattle.lf_trials.specs.Names.{name_for};
ghost use Rattle.lf_uniform.specs.views.Following.{followed_call, known_by, told_of};
ghost use Rattle.lf_nodes.specs.views.Needed.{parts_needed};

use crate::effects::effect;
use crate::operators::{self, nameless_if};
use crate::setting::Setting;
use crate::told::{FollowedText, lost, operand};
use lf_ast::walk::{Fold, Parts, fold_up};
use lf_ast::{
    Expr, ExprType, Function, Grouping, Matcher, Matching, Op, is_scalar, joined, selected,
    selected_name,
};
use lf_base::{Memory, Text};
use lf_candidates::passes_in;
use lf_classes::{TextSet, Universe};
use lf_nodes::{both, is_metric, parts_needed, the_only};
use std::alloc::Global;

/// A label that is followed: the text that it has on all scraped series, and what is told of it on what the rules of some names give.
#[derive(Drop)]
pub struct Following<'a> {
    pub setting: &'a Setting<'a>,
    pub label: &'a Text,
    pub given: &'a Text,
    pub names: &'a TextSet,
    pub values: &'a [Option<Text>],
}

impl<'a> Following<'a> {
    /// The text that the label has on what an expression gives, or that it can't be followed.
    pub fn through(&self, alloc: Global, expr: &Expr) -> Result<Option<Text>, Memory>
        ensures { IfOk result (λ text. text ≡ follow self.now.setting.now.universe (rule_trees self.now.setting.now.rules) self.now.label.now self.now.given.now (known_by self.now.names.now self.now.values.now) (tree expr.now)) }
    {
        let told = fold_up(alloc, self, expr)?;
        Ok(told.text)
    }

    /// The text on what a selector selects, which may be of a recorded name, if it passes its matchers on the label.
    fn selector(
        &self,
        alloc: Global,
        name: &Option<Text>,
        matchers: &[Matcher],
    ) -> Result<Option<Text>, Memory>
        ensures { IfOk result (λ text. text ≡ if_it_passes self.now.label.now matchers.now (follow_name self.now.setting.now.universe (rule_trees self.now.setting.now.rules) self.now.label.now self.now.given.now (known_by self.now.names.now self.now.values.now) (selected_name name.now matchers.now) matchers.now)) }
    {
        let text = self.selected(alloc, name, matchers)?;
        let universe = self.setting.universe();
        if_it_passes(alloc, universe, self.label.as_str(), matchers, text)
    }

    /// The text on what a selector selects, whatever its matchers on the label.
    fn selected(
        &self,
        alloc: Global,
        name: &Option<Text>,
        matchers: &[Matcher],
    ) -> Result<Option<Text>, Memory>
        ensures { IfOk result (λ text. text ≡ follow_name self.now.setting.now.universe (rule_trees self.now.setting.now.rules) self.now.label.now self.now.given.now (known_by self.now.names.now self.now.values.now) (selected_name name.now matchers.now) matchers.now) }
    {
        match selected_name(name, matchers) {
            Some(name) => self.named(name),
            None => self.unnamed(alloc, matchers),
        }
    }

    /// The text on what has a name.
    fn named(&self, name: &Text) -> Result<Option<Text>, Memory>
        ensures { (matchers : List Matcher) → IfOk result (λ text. text ≡ follow_name self.now.setting.now.universe (rule_trees self.now.setting.now.rules) self.now.label.now self.now.given.now (known_by self.now.names.now self.now.values.now) (Some name.now) matchers) }
    {
        if self.setting.is_recorded(name.as_str()) {
            self.known(name)
        } else if is_metric(self.label.as_str()) {
            Ok(Some(name.copy()?))
        } else {
            Ok(Some(self.given.copy()?))
        }
    }

    /// What is told of a recorded name.
    fn known(&self, name: &Text) -> Result<Option<Text>, Memory>
        ensures { IfOk result (λ text. text ≡ known_by self.now.names.now self.now.values.now name.now) }
    {
        let place = self.names.place(name.as_str());
        if place < self.values.len() {
            copy(&self.values[place])
        } else {
            Ok(None)
        }
    }

    /// The text on what a selector selects that says no name.
    fn unnamed(&self, alloc: Global, matchers: &[Matcher]) -> Result<Option<Text>, Memory>
        ensures { IfOk result (λ text. text ≡ on_series self.now.setting.now.universe (rule_trees self.now.setting.now.rules) self.now.label.now self.now.given.now (name_for self.now.setting.now.universe (rule_trees self.now.setting.now.rules) matchers.now)) }
    {
        if is_metric(self.label.as_str()) {
            self.setting.name_for(alloc, matchers)
        } else {
            Ok(Some(self.given.copy()?))
        }
    }
}

impl<'a> Fold for Following<'a> {
    type Value = FollowedText;

    type Note = Option<Function>;

    ghost use Rattle.std.specs.Prelude.{◌≡◌};
    ghost use Rattle.std.specs.Option.{option_map};
    ghost use Rattle.lf_ast.specs.Functions.{called_by, signature_of};
    ghost use Rattle.lf_ast.specs.Rules.{rule_trees};
    ghost use Rattle.lf_uniform.specs.views.Following.{known_by, told_of};
    ghost use Rattle.lf_nodes.specs.views.Needed.{parts_needed};

    ghost value = { λ f e. told_of f.setting.now.universe (rule_trees f.setting.now.rules) f.label.now f.given.now (known_by f.names.now f.values.now) e };

    ghost needed = { λ f e. parts_needed e };

    ghost notes = { λ e function. option_map signature_of function ≡ called_by e };

    fn enter(&self, expr: &Expr) -> (Parts, Option<Function>) {
        let function = Function::called_by(expr);
        (parts_needed(expr, &function), function)
    }

    fn step(
        &self,
        alloc: Global,
        expr: &Expr,
        function: Option<Function>,
        values: Vec<FollowedText>,
    ) -> Result<FollowedText, Memory>
        requires function { option_map signature_of function ≡ called_by (tree expr.now) }
        requires values { values.items ≡ map (told_of self.now.setting.now.universe (rule_trees self.now.setting.now.rules) self.now.label.now self.now.given.now (known_by self.now.names.now self.now.values.now)) (chosen (parts_needed (tree expr.now)) (parts_of (tree expr.now))) }
        ensures { IfOk result (λ made. made ≡ told_of self.now.setting.now.universe (rule_trees self.now.setting.now.rules) self.now.label.now self.now.given.now (known_by self.now.names.now self.now.values.now) (tree expr.now)) }
    {
        from_parts(alloc, self, expr, function, values)
    }
}

/// What is told of an expression, from what it calls and what is told of its parts.
fn from_parts(
    alloc: Global,
    following: &Following,
    expr: &Expr,
    function: Option<Function>,
    parts: Vec<FollowedText>,
) -> Result<FollowedText, Memory>
    requires function { option_map signature_of function ≡ called_by (tree expr.now) }
    requires parts { parts.items ≡ map (told_of following.now.setting.now.universe (rule_trees following.now.setting.now.rules) following.now.label.now following.now.given.now (known_by following.now.names.now following.now.values.now)) (chosen (parts_needed (tree expr.now)) (parts_of (tree expr.now))) }
    ensures text { IfOk result (λ made. made.text ≡ follow following.now.setting.now.universe (rule_trees following.now.setting.now.rules) following.now.label.now following.now.given.now (known_by following.now.names.now following.now.values.now) (tree expr.now)) }
    ensures form { IfOk result (λ made. made.form ≡ type_by_form (tree expr.now)) }
{
    let label = following.label.as_str();
    match expr {
        Expr::Number { .. } => Ok(FollowedText {
            text: lost(alloc),
            form: ExprType::Scalar,
        }),
        Expr::Str { .. } => Ok(FollowedText {
            text: None,
            form: ExprType::Str,
        }),
        Expr::Selector {
            name,
            matchers,
            sight,
            ..
        } => Ok(FollowedText {
            text: following.selector(alloc, name, matchers.as_slice())?,
            form: selected(&sight.range),
        }),
        Expr::Subquery { .. } => Ok(FollowedText {
            text: the_only(parts).text,
            form: ExprType::Range,
        }),
        Expr::Paren { .. } => Ok(the_only(parts)),
        Expr::Unary { minus, .. } => Ok(signed(alloc, label, *minus, the_only(parts))),
        Expr::Binary { op, modifier, .. } => {
            let (left, right) = both(parts);
            Ok(binary(alloc, label, *op, modifier, left, right))
        }
        Expr::Call { args, .. } => called(
            alloc,
            label,
            function,
            &Grouping::None,
            args.as_slice(),
            operand(parts),
        ),
        Expr::Aggregate { grouping, args, .. } => called(
            alloc,
            label,
            function,
            grouping,
            args.as_slice(),
            operand(parts),
        ),
    }
}

/// A sign before an operand.
fn signed(alloc: Global, label: &str, minus: bool, operand: FollowedText) -> FollowedText
    ensures text { result.text ≡ nameless_if label.now minus operand.text }
    ensures form { result.form ≡ operand.form }
{
    let form = operand.form;
    FollowedText {
        text: nameless_if(alloc, label, minus, operand.text),
        form,
    }
}

/// An operator between two sides.
fn binary(
    alloc: Global,
    label: &str,
    op: Op,
    matching: &Matching,
    left: FollowedText,
    right: FollowedText,
) -> FollowedText
    ensures text { result.text ≡ follow_binary label.now op matching.now (is_scalar left.form) (is_scalar right.form) left.text right.text }
    ensures form { result.form ≡ joined left.form right.form }
{
    let form = joined(left.form, right.form);
    let scalars = (is_scalar(left.form), is_scalar(right.form));
    FollowedText {
        text: operators::binary(alloc, label, op, matching, scalars, left.text, right.text),
        form,
    }
}

/// A call of a function, or of none, with the text on its operand.
fn called(
    alloc: Global,
    label: &str,
    function: Option<Function>,
    grouping: &Grouping,
    args: &[Expr],
    operand: Option<Text>,
) -> Result<FollowedText, Memory>
    ensures text { IfOk result (λ made. made.text ≡ followed_call label.now (option_map signature_of function) grouping.now (trees args.now) operand) }
    ensures form { IfOk result (λ made. made.form ≡ given_by (option_map signature_of function)) }
{
    match function {
        Some(function) => Ok(FollowedText {
            text: effect(alloc, label, function.labels, grouping, args, operand)?,
            form: function.gives,
        }),
        None => Ok(FollowedText {
            text: None,
            form: ExprType::Vector,
        }),
    }
}

/// The text, if it is there and passes the matchers on the label.
fn if_it_passes(
    alloc: Global,
    universe: &Universe,
    label: &str,
    matchers: &[Matcher],
    text: Option<Text>,
) -> Result<Option<Text>, Memory>
    ensures { IfOk result (λ told. told ≡ if_it_passes label.now matchers.now text) }
{
    match text {
        Some(text) => {
            if passes_on_label(alloc, universe, label, matchers, &text)? {
                Ok(Some(text))
            } else {
                Ok(None)
            }
        }
        None => Ok(None),
    }
}

/// Whether a text passes the matchers on a label.
fn passes_on_label(
    alloc: Global,
    universe: &Universe,
    label: &str,
    matchers: &[Matcher],
    text: &Text,
) -> Result<bool, Memory>
    ensures { IfOk result (λ found. found ≡ passes_on_label label.now matchers.now text.now) }
{
    for matcher in matchers {
        if matcher.label.as_str() == label && !passes_in(alloc, universe, matcher, text)? {
            return Ok(false);
        }
    }
    Ok(true)
}

/// An equal text, if there is one.
fn copy(text: &Option<Text>) -> Result<Option<Text>, Memory>
    ensures { IfOk result (λ copied. copied ≡ text.now) }
{
    match text {
        Some(text) => Ok(Some(text.copy()?)),
        None => Ok(None),
    }
}
