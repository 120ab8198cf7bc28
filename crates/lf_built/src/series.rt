//! The series for selectors.
ghost use Rattle.std.specs.Prelude.{◌≡◌, ◌<◌, cond, false, List, Some, None, option_and_then, IfOk, IfSome};
ghost use Rattle.std.specs.Option.{option_map};
ghost use Rattle.lf_ast.specs.Labels.{Bytes};
ghost use Rattle.lf_ast.specs.Rules.{RuleTree};
ghost use Rattle.lf_ast.specs.Selectors.{metric};
ghost use Rattle.lf_classes.specs.Limits.{IsWithin};
ghost use Rattle.lf_semantics.specs.Environments.{recorded_names};
ghost use Rattle.lf_trials.specs.Building.{Builder, with_series};
ghost use Rattle.lf_trials.specs.Built.{build_selector, name_of_series};
ghost use Rattle.lf_trials.specs.Candidates.{labels_in};
ghost use Rattle.lf_trials.specs.Given.{Given, giving, label_set};
ghost use Rattle.lf_trials.specs.Names.{is_scraped_name, name_for};
ghost use Rattle.lf_trials.specs.Reached.{is_recorded};
ghost use Rattle.lf_candidates.specs.views.ClassTexts.{IsClass, KnowsName, Stands, text_at};
ghost use Rattle.lf_built.specs.views.Unsaid.{IsNameFor};

use crate::unsaid::SoughtName;
use lf_ast::{LabelSet, Matcher};
use lf_base::{Memory, Text};
use lf_candidates::{LabelTexts, is_scraped_name, name_for};
use lf_classes::{TextSet, Universe};
use std::alloc::Global;

/// The number of the label `__name__`.
const METRIC: u32 = 0;

/// The series of these texts for a selector of a name that no rule records, and none where there is no world: no series has the empty name.
pub fn series_named(
    alloc: Global,
    universe: &Universe,
    names: &[Text],
    name: &str,
    texts: LabelTexts,
) -> Result<Option<LabelSet>, Memory>
    requires universe { IsWithin universe.now }
    requires names { names.now ≡ labels_in universe.now }
    requires known { KnowsName universe.now name.now }
    requires texts { (D : Given) × Stands universe.now texts D }
    ensures { (rules : List RuleTree) (build_rule : Bytes → Builder) (matchers : List Matcher) (D : Given) → is_recorded rules name.now ≡ false → Stands universe.now texts D → IfOk result (λ s. option_and_then with_series s ≡ build_selector universe.now rules build_rule (Some name.now) matchers D) }
{
    if name == "" {
        return Ok(None);
    }
    let class = universe.class_of(METRIC, name);
    let series = series_of_class(alloc, universe, names, class, texts)?;
    Ok(Some(series))
}

/// The series of these texts for a selector that says no name, and none where there is no world. Its own name is sought where it wasn't before.
pub fn series_unnamed(
    alloc: Global,
    universe: &Universe,
    names: &[Text],
    recorded: &TextSet,
    matchers: &[Matcher],
    sought: Option<SoughtName>,
    texts: LabelTexts,
) -> Result<Option<LabelSet>, Memory>
    requires universe { IsWithin universe.now }
    requires names { names.now ≡ labels_in universe.now }
    requires class { IfSome sought (λ found. IsClass universe.now 0 found.class) }
    requires texts { (D : Given) × Stands universe.now texts D }
    ensures { (rules : List RuleTree) (build_rule : Bytes → Builder) (D : Given) → recorded.now ≡ recorded_names rules → IfSome sought (IsNameFor universe.now rules matchers.now) → Stands universe.now texts D → IfOk result (λ s. option_and_then with_series s ≡ build_selector universe.now rules build_rule None matchers.now D) }
{
    match name_class(alloc, universe, recorded, matchers, sought, &texts)? {
        Some(class) => {
            let series = series_of_class(alloc, universe, names, class, texts)?;
            Ok(Some(series))
        }
        None => Ok(None),
    }
}

/// The class of the name of the series for a selector that says none: the one that is said, where scraped series may have it, and else the first that passes.
fn name_class(
    alloc: Global,
    universe: &Universe,
    recorded: &TextSet,
    matchers: &[Matcher],
    sought: Option<SoughtName>,
    texts: &LabelTexts,
) -> Result<Option<u32>, Memory>
    requires universe { IsWithin universe.now }
    requires class { IfSome sought (λ found. IsClass universe.now 0 found.class) }
    requires texts { (D : Given) × Stands universe.now texts.now D }
    ensures class { IfOk result (IsClass universe.now 0) }
    ensures name { (rules : List RuleTree) (D : Given) → recorded.now ≡ recorded_names rules → IfSome sought (IsNameFor universe.now rules matchers.now) → Stands universe.now texts.now D → IfOk result (λ class. option_map (text_at universe.now 0) class ≡ name_of_series universe.now rules matchers.now D) }
{
    match said_class(universe, recorded, texts) {
        Some(class) => Ok(Some(class)),
        None => own_class(alloc, universe, recorded, matchers, sought),
    }
}

/// The class of the first name that passes: the one that was found, and else it is sought.
fn own_class(
    alloc: Global,
    universe: &Universe,
    recorded: &TextSet,
    matchers: &[Matcher],
    sought: Option<SoughtName>,
) -> Result<Option<u32>, Memory>
    requires universe { IsWithin universe.now }
    requires class { IfSome sought (λ found. IsClass universe.now 0 found.class) }
    ensures class { IfOk result (IsClass universe.now 0) }
    ensures name { (rules : List RuleTree) → recorded.now ≡ recorded_names rules → IfSome sought (IsNameFor universe.now rules matchers.now) → IfOk result (λ class. option_map (text_at universe.now 0) class ≡ name_for universe.now rules matchers.now) }
{
    match sought {
        Some(found) => Ok(found.class),
        None => name_for(alloc, universe, recorded, matchers),
    }
}

/// The class that is said of the metric name, where scraped series may have the name.
fn said_class(universe: &Universe, recorded: &TextSet, texts: &LabelTexts) -> Option<u32>
    requires universe { IsWithin universe.now }
    requires texts { (D : Given) × Stands universe.now texts.now D }
    ensures class { IsClass universe.now 0 result }
    ensures name { (rules : List RuleTree) (D : Given) → recorded.now ≡ recorded_names rules → Stands universe.now texts.now D → option_map (text_at universe.now 0) result ≡ option_and_then (λ name. cond (is_scraped_name rules name) (Some name) None) (D metric) }
{
    let class = texts.get(METRIC as usize)?;
    if is_scraped_name(recorded, universe.candidate(METRIC, class).as_str()) {
        Some(class)
    } else {
        None
    }
}

/// The series of these texts under the name of a class.
fn series_of_class(
    alloc: Global,
    universe: &Universe,
    names: &[Text],
    class: u32,
    mut texts: LabelTexts,
) -> Result<LabelSet, Memory>
    requires universe { IsWithin universe.now }
    requires names { names.now ≡ labels_in universe.now }
    requires class { IsClass universe.now 0 (Some class) }
    requires texts { (D : Given) × Stands universe.now texts D }
    ensures { (D : Given) → Stands universe.now texts D → IfOk result (λ s. s ≡ label_set (labels_in universe.now) (giving metric (text_at universe.now 0 class) D)) }
{
    texts.give(METRIC, class);
    texts.label_set(alloc, universe, names)
}
