//! What is told of a label on what the rules in line give, and on what a rule's expression gives.
ghost use Rattle.std.specs.Prelude.{◌≡◌, ◌<◌, IfOk, Some, length, slice_get};
ghost use Rattle.std.specs.List.{find};
ghost use Rattle.std.specs.Option.{option_copied, option_map};
ghost use Rattle.std.specs.Str.{bytes_eq};
ghost use Rattle.lf_ast.specs.Rules.{RuleTree, rule_tree, rule_trees};
ghost use Rattle.lf_ast.specs.declared.rule.RuleLabel.{RuleLabel};
ghost use Rattle.lf_trials.specs.Follow.{follow, follow_from, recorded_text};
ghost use Rattle.lf_uniform.specs.views.Following.{known_by};
ghost use Rattle.lf_uniform.specs.views.Lines.{AreEntries, AreValues};
ghost use Rattle.lf_uniform.specs.views.Ways.{IsWay};

use crate::following::Following;
use crate::line::Line;
use crate::setting::Setting;
use lf_ast::{Rule, RuleLabel};
use lf_base::{Memory, Text};
use lf_nodes::is_metric;
use std::alloc::Global;

/// The text that a label has on what a rule's expression gives, if it has one text on all scraped series, or that it can't be followed.
///
/// It goes over the rules in line and then over the rule itself, each once.
pub fn follow_from(
    alloc: Global,
    setting: &Setting,
    line: &Line,
    number: u32,
    label: &Text,
    given: &Text,
) -> Result<Option<Text>, Memory>
    requires { IsWay (rule_trees setting.now.rules) number line.now }
    ensures { (own : RuleTree) → slice_get (rule_trees setting.now.rules) number ≡ Some own → IfOk result (λ text. text ≡ follow_from setting.now.universe (rule_trees setting.now.rules) label.now given.now number own) }
{
    let values = values(alloc, setting, line, label, given)?;
    let following = Following {
        setting,
        label,
        given,
        names: line.names(),
        values: values.as_slice(),
    };
    let own = setting.rules().get(number as usize);
    following.through(alloc, &own.expr)
}

/// What is told of the names in line, each by what is told of those before it.
fn values(
    alloc: Global,
    setting: &Setting,
    line: &Line,
    label: &Text,
    given: &Text,
) -> Result<Vec<Option<Text>>, Memory>
    requires { AreEntries (rule_trees setting.now.rules) line.now }
    ensures { IfOk result (λ values. AreValues setting.now.universe (rule_trees setting.now.rules) label.now given.now line.now values.items) }
{
    let mut values = Vec::new(alloc);
    for number in line.numbers() {
        let value = value(
            alloc,
            setting,
            line,
            label,
            given,
            values.as_slice(),
            *number,
        )?;
        values.push(value)?;
    }
    Ok(values)
}

/// What the rule of a number gives under its name, by what is told of the first names in line.
fn value(
    alloc: Global,
    setting: &Setting,
    line: &Line,
    label: &Text,
    given: &Text,
    values: &[Option<Text>],
    number: u32,
) -> Result<Option<Text>, Memory>
    requires { number < length setting.now.rules }
    ensures { (r : RuleTree) → slice_get (rule_trees setting.now.rules) number ≡ Some r → IfOk result (λ text. text ≡ option_map (recorded_text label.now r) (follow setting.now.universe (rule_trees setting.now.rules) label.now given.now (known_by line.now.names values.now) r.expr)) }
{
    let rule = setting.rules().get(number as usize);
    let following = Following {
        setting,
        label,
        given,
        names: line.names(),
        values,
    };
    let text = following.through(alloc, &rule.expr)?;
    recorded(label, rule, text)
}

/// The text as a rule stores it, if there is one.
fn recorded(label: &Text, rule: &Rule, text: Option<Text>) -> Result<Option<Text>, Memory>
    ensures { IfOk result (λ stored. stored ≡ option_map (recorded_text label.now (rule_tree rule.now)) text) }
{
    match text {
        Some(text) => Ok(Some(recorded_text(label, rule, text)?)),
        None => Ok(None),
    }
}

/// The text as a rule stores it: that of a label that it sets, the recorded name, and else what its expression gives.
fn recorded_text(label: &Text, rule: &Rule, text: Text) -> Result<Text, Memory>
    ensures { IfOk result (λ stored. stored ≡ recorded_text label.now (rule_tree rule.now) text) }
{
    match set_text(rule.labels.as_slice(), label.as_str()) {
        Some(set) => set.copy(),
        None => {
            if is_metric(label.as_str()) {
                rule.name.copy()
            } else {
                Ok(text)
            }
        }
    }
}

/// The text that these labels set of a name.
fn set_text<'a>(labels: &'a [RuleLabel], name: &str) -> Option<&'a Text>
    ensures { option_copied result ≡ option_map (λ (l : RuleLabel). l.value) (find (λ l. bytes_eq l.key name.now) labels.now) }
{
    for label in labels {
        if label.key.as_str() == name {
            return Some(&label.value);
        }
    }
    None
}
