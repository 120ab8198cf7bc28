//! The names that scraped series may have.
ghost use Rattle.std.specs.Prelude.{◌≡◌, ◌<◌, ◌+◌, ◌||◌, ◌&&◌, List, length, IfOk};
ghost use Rattle.std.specs.Option.{option_map};
ghost use Rattle.lf_ast.specs.Rules.{RuleTree};
ghost use Rattle.lf_classes.specs.Limits.{IsWithin};
ghost use Rattle.lf_semantics.specs.ClassRows.{HasShape};
ghost use Rattle.lf_semantics.specs.Environments.{recorded_names};
ghost use Rattle.lf_semantics.specs.Listing.{named_at};
ghost use Rattle.lf_trials.specs.Names.{is_scraped_name, name_for, passes_as_name};
ghost use Rattle.lf_trials.specs.Reached.{is_recorded};
ghost use Rattle.lf_candidates.specs.views.ClassTexts.{HasPassing, IsClass, text_at};

use crate::names_left::names_left;
use crate::passing::passes_in;
use lf_ast::Matcher;
use lf_base::{Memory, Text};
use lf_classes::{Row, TextSet, Universe};
use lf_nodes::is_metric;
use std::alloc::Global;

/// The number of the label `__name__`.
const METRIC: u32 = 0;

/// Whether a rule records a name, by the recorded names.
pub fn is_recorded(recorded: &TextSet, name: &str) -> bool
    ensures { (rules : List RuleTree) → recorded.now ≡ recorded_names rules → result ≡ is_recorded rules name.now }
{
    recorded.place(name) < recorded.len()
}

/// Whether scraped series may have a name: it isn't empty, and no rule records it.
pub fn is_scraped_name(recorded: &TextSet, name: &str) -> bool
    ensures { (rules : List RuleTree) → recorded.now ≡ recorded_names rules → result ≡ is_scraped_name rules name.now }
{
    !(name == "" || is_recorded(recorded, name))
}

/// Whether a name passes the matchers on the metric name.
pub fn passes_as_name(
    alloc: Global,
    universe: &Universe,
    matchers: &[Matcher],
    name: &Text,
) -> Result<bool, Memory>
    ensures { IfOk result (λ found. found ≡ passes_as_name matchers.now name.now) }
{
    for matcher in matchers {
        if is_metric(matcher.label.as_str()) && !passes_in(alloc, universe, matcher, name)? {
            return Ok(false);
        }
    }
    Ok(true)
}

/// Whether scraped series may have a name, and it passes the matchers on the metric name.
fn may_be_name(
    alloc: Global,
    universe: &Universe,
    recorded: &TextSet,
    matchers: &[Matcher],
    name: &Text,
) -> Result<bool, Memory>
    ensures { (rules : List RuleTree) → recorded.now ≡ recorded_names rules → IfOk result (λ found. found ≡ (is_scraped_name rules name.now && passes_as_name matchers.now name.now)) }
{
    if !is_scraped_name(recorded, name.as_str()) {
        return Ok(false);
    }
    passes_as_name(alloc, universe, matchers, name)
}

/// Whether scraped series may have the name that stands for a class of `__name__`, and it passes the matchers on it, which leave these classes.
fn is_name(
    alloc: Global,
    universe: &Universe,
    recorded: &TextSet,
    matchers: &[Matcher],
    left: &Row,
    class: u32,
) -> Result<bool, Memory>
    requires universe { IsWithin universe.now }
    requires class { class < length (named_at universe.now 0) + 2 }
    requires shape { HasShape universe.now left.now }
    requires left { HasPassing universe.now matchers.now left.now }
    ensures { (rules : List RuleTree) → recorded.now ≡ recorded_names rules → IfOk result (λ found. found ≡ (is_scraped_name rules (text_at universe.now 0 class) && passes_as_name matchers.now (text_at universe.now 0 class))) }
{
    let classes = universe.classes(METRIC);
    if class + 1 < classes && !left.has(METRIC, class) {
        return Ok(false);
    }
    let name = universe.candidate(METRIC, class);
    may_be_name(alloc, universe, recorded, matchers, name)
}

/// The class of the name of the series for a selector with these matchers, which says no name: the first candidate that scraped series may have as a name and that passes
/// the matchers on it.
pub fn name_for(
    alloc: Global,
    universe: &Universe,
    recorded: &TextSet,
    matchers: &[Matcher],
) -> Result<Option<u32>, Memory>
    requires { IsWithin universe.now }
    ensures class { IfOk result (IsClass universe.now 0) }
    ensures name { (rules : List RuleTree) → recorded.now ≡ recorded_names rules → IfOk result (λ class. option_map (text_at universe.now 0) class ≡ name_for universe.now rules matchers.now) }
{
    let left = names_left(alloc, universe, matchers)?;
    for class in 0..universe.classes(METRIC) {
        let fits = is_name(alloc, universe, recorded, matchers, &left, class)?;
        if fits {
            return Ok(Some(class));
        }
    }
    Ok(None)
}
