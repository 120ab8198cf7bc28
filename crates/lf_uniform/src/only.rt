//! The only candidate with which a label may be followed through a rule's expression.
ghost use Rattle.std.specs.Prelude.{◌≡◌, ◌<◌, IfOk, IfSome, Some, length, slice_get};
ghost use Rattle.lf_ast.specs.Rules.{RuleTree, rule_trees};
ghost use Rattle.lf_classes.specs.Limits.{IsWithin};
ghost use Rattle.lf_candidates.specs.views.ClassTexts.{IsClass, name_at, text_at};
ghost use Rattle.lf_uniform.specs.views.Texts.{IsOnly};

use crate::required::required_text;
use crate::setting::Setting;
use lf_base::{Memory, Text};
use lf_classes::Universe;
use lf_nodes::is_metric;
use std::alloc::Global;

/// Of so many candidates each is asked in turn: to look for the one that is required takes about as long as to ask one.
const FEW_CANDIDATES: u32 = 8;

/// The class of the only candidate with which a label may be followed, where one is required. It isn't looked for where a label has few candidates, which are soon asked. Of the
/// metric name none is: each series has one of its own.
pub fn only_class(
    alloc: Global,
    setting: &Setting,
    number: u32,
    label: u32,
    name: &Text,
) -> Result<Option<u32>, Memory>
    requires rule { number < length setting.now.rules }
    requires label { label < length setting.now.universe.named }
    requires name { name.now ≡ name_at setting.now.universe label }
    ensures class { IfOk result (IsClass setting.now.universe label) }
    ensures only { (own : RuleTree) → slice_get (rule_trees setting.now.rules) number ≡ Some own → IfOk result (λ class. IfSome class (IsOnly setting.now.universe (rule_trees setting.now.rules) number own label)) }
{
    let universe = setting.universe();
    if is_metric(name.as_str()) {
        return Ok(None);
    }
    if universe.classes(label) <= FEW_CANDIDATES {
        return Ok(None);
    }
    let own = setting.rules().get(number as usize);
    match required_text(alloc, setting, name, &own.expr)? {
        Some(text) => Ok(class_with(universe, label, &text)),
        None => Ok(None),
    }
}

/// The class of a label for which a text stands, if it is one of its candidates.
fn class_with(universe: &Universe, label: u32, text: &Text) -> Option<u32>
    requires universe { IsWithin universe.now }
    requires label { label < length universe.now.named }
    ensures class { IsClass universe.now label result }
    ensures text { IfSome result (λ class. text_at universe.now label class ≡ text.now) }
{
    let class = universe.class_of(label, text.as_str());
    if universe.candidate(label, class).as_str() == text.as_str() {
        Some(class)
    } else {
        None
    }
}
