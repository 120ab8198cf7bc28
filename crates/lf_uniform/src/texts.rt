//! The texts of the labels on scraped series.
ghost use Rattle.std.specs.Prelude.{◌≡◌, ◌<◌, ◌≤◌, ◌+◌, IfOk, Some, false, length, slice_get, true};
ghost use Rattle.std.specs.List.{find};
ghost use Rattle.std.specs.Option.{option_map};
ghost use Rattle.lf_ast.specs.Rules.{RuleTree, rule_trees};
ghost use Rattle.lf_semantics.specs.Grouped.{is_metric};
ghost use Rattle.lf_semantics.specs.Listing.{named_at};
ghost use Rattle.lf_trials.specs.Candidates.{candidates, labels_in};
ghost use Rattle.lf_candidates.specs.views.ClassTexts.{IsClass, Stands, name_at, text_at};
ghost use Rattle.lf_uniform.specs.views.Texts.{IsOnly, comes_out, first_texts, is_followed, passes_as};
ghost use Rattle.lf_uniform.specs.views.Ways.{IsWay};

use crate::line::Line;
use crate::only::only_class;
use crate::setting::Setting;
use crate::table::follow_from;
use lf_base::{Memory, Text};
use lf_candidates::LabelTexts;
use lf_classes::Universe;
use lf_nodes::is_metric;
use std::alloc::Global;

/// How a label is to come out on what the rule's expression gives.
#[derive(Clone, Copy, Drop)]
pub enum WantedPresence {
    /// With whatever text.
    Anything,
    /// It is there.
    Present,
    /// It is absent.
    Absent,
}

/// For each label the first candidate with which it can be followed through the rule's expression. The names are those of the labels, in their order.
pub fn first_texts(
    alloc: Global,
    setting: &Setting,
    line: &Line,
    number: u32,
    names: &[Text],
) -> Result<LabelTexts, Memory>
    requires way { IsWay (rule_trees setting.now.rules) number line.now }
    requires names { names.now ≡ labels_in setting.now.universe }
    ensures { (own : RuleTree) → slice_get (rule_trees setting.now.rules) number ≡ Some own → IfOk result (λ texts. Stands setting.now.universe texts (first_texts setting.now.universe (rule_trees setting.now.rules) number own)) }
{
    let universe = setting.universe();
    let mut texts = LabelTexts::nothing(alloc, universe)?;
    for label in 0..universe.labels() {
        let place = label as usize;
        let class = first_followed(
            alloc,
            setting,
            line,
            number,
            label,
            &names[place],
            WantedPresence::Anything,
        )?;
        texts.put(place, class);
    }
    Ok(texts)
}

/// The class of a label's first candidate with which it can be followed and comes out as it is wanted.
pub fn first_followed(
    alloc: Global,
    setting: &Setting,
    line: &Line,
    number: u32,
    label: u32,
    name: &Text,
    wanted: WantedPresence,
) -> Result<Option<u32>, Memory>
    requires way { IsWay (rule_trees setting.now.rules) number line.now }
    requires label { label < length setting.now.universe.named }
    requires name { name.now ≡ name_at setting.now.universe label }
    ensures class { IfOk result (IsClass setting.now.universe label) }
    ensures text { (own : RuleTree) → slice_get (rule_trees setting.now.rules) number ≡ Some own → IfOk result (λ class. option_map (text_at setting.now.universe label) class ≡ find (is_followed setting.now.universe (rule_trees setting.now.rules) number own wanted (name_at setting.now.universe label)) (candidates setting.now.universe (name_at setting.now.universe label))) }
{
    match only_class(alloc, setting, number, label, name)? {
        Some(class) => if_followed(alloc, setting, line, number, label, class, name, wanted),
        None => first_of_all(alloc, setting, line, number, label, name, wanted),
    }
}

/// The same where the label can be followed with no other candidate than that of a class, which alone is asked.
fn if_followed(
    alloc: Global,
    setting: &Setting,
    line: &Line,
    number: u32,
    label: u32,
    class: u32,
    name: &Text,
    wanted: WantedPresence,
) -> Result<Option<u32>, Memory>
    requires way { IsWay (rule_trees setting.now.rules) number line.now }
    requires label { label < length setting.now.universe.named }
    requires name { name.now ≡ name_at setting.now.universe label }
    requires class { IsClass setting.now.universe label (Some class) }
    requires only { (own : RuleTree) → slice_get (rule_trees setting.now.rules) number ≡ Some own → IsOnly setting.now.universe (rule_trees setting.now.rules) number own label class }
    ensures class { IfOk result (IsClass setting.now.universe label) }
    ensures text { (own : RuleTree) → slice_get (rule_trees setting.now.rules) number ≡ Some own → IfOk result (λ class. option_map (text_at setting.now.universe label) class ≡ find (is_followed setting.now.universe (rule_trees setting.now.rules) number own wanted (name_at setting.now.universe label)) (candidates setting.now.universe (name_at setting.now.universe label))) }
{
    let text = setting.universe().candidate(label, class);
    let fits = is_followed(alloc, setting, line, number, name, text, wanted)?;
    if fits { Ok(Some(class)) } else { Ok(None) }
}

/// The same where each candidate is asked in turn.
fn first_of_all(
    alloc: Global,
    setting: &Setting,
    line: &Line,
    number: u32,
    label: u32,
    name: &Text,
    wanted: WantedPresence,
) -> Result<Option<u32>, Memory>
    requires way { IsWay (rule_trees setting.now.rules) number line.now }
    requires label { label < length setting.now.universe.named }
    requires name { name.now ≡ name_at setting.now.universe label }
    ensures class { IfOk result (IsClass setting.now.universe label) }
    ensures text { (own : RuleTree) → slice_get (rule_trees setting.now.rules) number ≡ Some own → IfOk result (λ class. option_map (text_at setting.now.universe label) class ≡ find (is_followed setting.now.universe (rule_trees setting.now.rules) number own wanted (name_at setting.now.universe label)) (candidates setting.now.universe (name_at setting.now.universe label))) }
{
    let universe = setting.universe();
    for class in 0..telling_classes(universe, label, name) {
        let text = universe.candidate(label, class);
        let fits = is_followed(alloc, setting, line, number, name, text, wanted)?;
        if fits {
            return Ok(Some(class));
        }
    }
    Ok(None)
}

/// How many candidates of a label have to be asked: each, but of the metric name one tells of all. Each series has a name of its own, so that what is followed of it never
/// goes by the text that all have, and it would be asked of thousands.
fn telling_classes(universe: &Universe, label: u32, name: &Text) -> u32
    requires { label < length universe.now.named }
    ensures within { result ≤ length (named_at universe.now label) + 2 }
    ensures each { is_metric name.now ≡ false → result ≡ length (named_at universe.now label) + 2 }
    ensures one { is_metric name.now ≡ true → result ≡ 1 }
{
    if is_metric(name.as_str()) {
        1
    } else {
        universe.classes(label)
    }
}

/// Whether a label with this text can be followed and comes out as it is wanted.
fn is_followed(
    alloc: Global,
    setting: &Setting,
    line: &Line,
    number: u32,
    name: &Text,
    text: &Text,
    wanted: WantedPresence,
) -> Result<bool, Memory>
    requires { IsWay (rule_trees setting.now.rules) number line.now }
    ensures { (own : RuleTree) → slice_get (rule_trees setting.now.rules) number ≡ Some own → IfOk result (λ found. found ≡ is_followed setting.now.universe (rule_trees setting.now.rules) number own wanted name.now text.now) }
{
    let followed = follow_from(alloc, setting, line, number, name, text)?;
    Ok(comes_out(wanted, &followed))
}

/// Whether what is told of a label is as it is wanted.
fn comes_out(wanted: WantedPresence, followed: &Option<Text>) -> bool
    ensures { result ≡ comes_out wanted followed.now }
{
    match followed {
        Some(text) => passes_as(wanted, text.as_str()),
        None => false,
    }
}

/// Whether a text is as it is wanted.
fn passes_as(wanted: WantedPresence, text: &str) -> bool
    ensures { result ≡ passes_as wanted text.now }
{
    match wanted {
        WantedPresence::Anything => true,
        WantedPresence::Present => text != "",
        WantedPresence::Absent => text == "",
    }
}
