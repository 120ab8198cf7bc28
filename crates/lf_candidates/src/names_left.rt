//! The names that matchers leave, looked up for all classes at once.
ghost use Rattle.std.specs.Prelude.{◌≡◌, ◌<◌, ℕ, false, true, IfOk};
ghost use Rattle.std.specs.Str.{bytes_eq};
ghost use Rattle.lf_classes.specs.Limits.{IsWithin};
ghost use Rattle.lf_semantics.specs.ClassRows.{HasShape, holds};
ghost use Rattle.lf_semantics.specs.Listing.{other_class};
ghost use Rattle.lf_semantics.specs.Passing.{passes};
ghost use Rattle.lf_semantics.specs.RowTable.{text_of};
ghost use Rattle.lf_candidates.specs.views.ClassTexts.{HasPassing};

use lf_ast::{MatchOp, Matcher};
use lf_base::Memory;
use lf_classes::{Row, Universe};
use lf_nodes::is_metric;
use std::alloc::Global;

/// The number of the label `__name__`.
const METRIC: u32 = 0;

/// A row that has each class of `__name__` whose text passes the matchers on it. It lacks those that fail a pattern which the universe has cached, and those that a `!=` excludes; no clause says so,
/// since it saves time alone: `is_name` asks the matchers of each class that is left. What 'any other text' stands for isn't looked up.
///
/// So a pattern is asked once for all classes of a selector, and a name that one of a thousand `!=` excludes isn't compared with each of them.
pub fn names_left(alloc: Global, universe: &Universe, matchers: &[Matcher]) -> Result<Row, Memory>
    requires { IsWithin universe.now }
    ensures shape { IfOk result (HasShape universe.now) }
    ensures passing { IfOk result (HasPassing universe.now matchers.now) }
{
    let mut row = Row::full(alloc, universe)?;
    for matcher in matchers {
        if is_metric(matcher.label.as_str()) {
            drop_failing(universe, matcher, &mut row);
        }
    }
    Ok(row)
}

/// Takes from a row classes of `__name__` whose texts fail a matcher: those that fail a pattern, where the universe has cached it, and the text of a `!=`.
fn drop_failing(universe: &Universe, matcher: &Matcher, row: &mut Row)
    requires universe { IsWithin universe.now }
    requires shape { HasShape universe.now row.old }
    ensures shape { HasShape universe.now row.new }
    ensures passing { (class : ℕ) → class < other_class universe.now 0 → passes matcher.now.op matcher.now.value (text_of universe.now 0 class) ≡ true → holds row.old 0 class ≡ true → holds row.new 0 class ≡ true }
{
    let _settled = row.is_empty();
    match universe.cached_row(METRIC, matcher.op, matcher.value.as_str()) {
        Some(passing) => row.meet_label(METRIC, passing),
        None => match matcher.op {
            MatchOp::NotEqual => drop_text(universe, matcher.value.as_str(), row),
            MatchOp::Equal | MatchOp::Matches | MatchOp::NotMatches => {}
        },
    }
}

/// Takes the class of a text of `__name__` from a row. 'Any other text' is never the text.
fn drop_text(universe: &Universe, text: &str, row: &mut Row)
    requires universe { IsWithin universe.now }
    requires shape { HasShape universe.now row.old }
    ensures shape { HasShape universe.now row.new }
    ensures others { (class : ℕ) → class < other_class universe.now 0 → bytes_eq (text_of universe.now 0 class) text.now ≡ false → holds row.old 0 class ≡ true → holds row.new 0 class ≡ true }
{
    let _settled = row.is_empty();
    let classes = universe.classes(METRIC);
    let class = universe.class_of(METRIC, text);
    if class + 1 < classes {
        row.keep(METRIC, class, false);
    }
}
