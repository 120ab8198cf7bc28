//! The row of a selector.
ghost use Rattle.std.specs.Prelude.{◌≡◌, IfOk, IfSome};
ghost use Rattle.std.specs.List.{AllByRecursion};
ghost use Rattle.lf_semantics.specs.ClassRows.{HasShape};
ghost use Rattle.lf_semantics.specs.Environments.{IsEnvironment};
ghost use Rattle.lf_semantics.specs.Listing.{IsListing};
ghost use Rattle.lf_ast.specs.Selectors.{selected_name};
ghost use Rattle.lf_semantics.specs.RowTable.{row_named, row_or_series, scraped_row, seen_row, selector_row, series_row, with_recorded};
ghost use Rattle.lf_flow.specs.Raising.{joined_each};

use crate::Env;
use crate::narrowing::narrow;
use crate::scraped::scraped_row;
use lf_ast::{Matcher, selected_name};
use lf_base::{Memory, Text};
use lf_classes::{Row, Universe};
use std::alloc::Global;

/// The row of what a selector sees: the row of its name in the environment, else that of the series of this name, and without a name all recorded rows and all series,
/// by their row where it is at hand; of these the classes that pass its matchers.
pub fn select(
    alloc: Global,
    universe: &Universe,
    env: &Env,
    scraped: Option<&Row>,
    name: &Option<Text>,
    matchers: &[Matcher],
) -> Result<Row, Memory>
    requires env { IsEnvironment universe.now env.now }
    requires scraped { IfSome scraped (λ row. row.now ≡ scraped_row universe.now env.now) }
    ensures { IfOk result (λ row. row ≡ selector_row universe.now env.now name.now matchers.now) }
{
    let _labels = universe.labels();
    let mut row = seen(alloc, universe, env, scraped, name, matchers)?;
    for matcher in matchers {
        narrow(alloc, universe, matcher, &mut row)?;
    }
    Ok(row)
}

/// The row of what a selector sees before its matchers.
fn seen(
    alloc: Global,
    universe: &Universe,
    env: &Env,
    scraped: Option<&Row>,
    name: &Option<Text>,
    matchers: &[Matcher],
) -> Result<Row, Memory>
    requires listing { IsListing universe.now }
    requires env { IsEnvironment universe.now env.now }
    requires scraped { IfSome scraped (λ row. row.now ≡ scraped_row universe.now env.now) }
    ensures { IfOk result (λ row. row ≡ seen_row universe.now env.now (selected_name name.now matchers.now)) }
{
    match selected_name(name, matchers) {
        Some(name) => named(alloc, universe, env, name.as_str()),
        None => nameless(alloc, universe, env, scraped),
    }
}

/// The row of a name: what is recorded of it, or else its series.
fn named(alloc: Global, universe: &Universe, env: &Env, name: &str) -> Result<Row, Memory>
    ensures { IfOk result (λ row. row ≡ row_or_series universe.now (row_named env.now name.now) name.now) }
{
    match env.row(name) {
        Some(row) => row.copy(),
        None => series(alloc, universe, name),
    }
}

/// The series of a name that no rule records. No series has the empty name.
fn series(alloc: Global, universe: &Universe, name: &str) -> Result<Row, Memory>
    ensures { IfOk result (λ row. row ≡ series_row universe.now name.now) }
{
    if name == "" {
        return Row::empty(alloc, universe);
    }
    let mut row = Row::full(alloc, universe)?;
    let label = universe.label_of("__name__");
    let class = universe.class_of(label, name);
    row.set_class(label, class);
    Ok(row)
}

/// All series and all recorded samples.
fn nameless(
    alloc: Global,
    universe: &Universe,
    env: &Env,
    scraped: Option<&Row>,
) -> Result<Row, Memory>
    requires listing { IsListing universe.now }
    requires env { IsEnvironment universe.now env.now }
    requires scraped { IfSome scraped (λ row. row.now ≡ scraped_row universe.now env.now) }
    ensures { IfOk result (λ row. row ≡ with_recorded universe.now env.now (scraped_row universe.now env.now)) }
{
    let mut row = copied_or_made(alloc, universe, env, scraped)?;
    match env.all() {
        Some(all) => row.join(all),
        None => join_each(universe, env.rows(), &mut row),
    }
    Ok(row)
}

/// Joins rows to another one, the first of them last.
fn join_each(universe: &Universe, rows: &[Row], row: &mut Row)
    requires row { HasShape universe.now row.old }
    requires each { AllByRecursion (HasShape universe.now) rows.now }
    ensures { row.new ≡ joined_each rows.now row.old }
{
    let mut left = rows.len();
    while left > 0 {
        left -= 1;
        row.join(&rows[left]);
    }
}

/// All series, by their row where it is at hand.
fn copied_or_made(
    alloc: Global,
    universe: &Universe,
    env: &Env,
    scraped: Option<&Row>,
) -> Result<Row, Memory>
    requires { IfSome scraped (λ row. row.now ≡ scraped_row universe.now env.now) }
    ensures { IfOk result (λ row. row ≡ scraped_row universe.now env.now) }
{
    match scraped {
        Some(row) => row.copy(),
        None => scraped_row(alloc, universe, env),
    }
}
