//! The rows of rules.
ghost use Rattle.std.specs.Prelude.{◌≡◌, ◌<◌, ◌≤◌, List, None, Some, cond, false, length, map, slice_get, IfNone, IfOk, IfSome};
ghost use Rattle.lf_ast.specs.Tree.{nodes};
ghost use Rattle.lf_ast.specs.Rules.{RuleTree, rule_tree, rule_trees};
ghost use Rattle.lf_deps.specs.views.Sources.{IsSourcesOf};
ghost use Rattle.lf_semantics.specs.ClassRows.{is_live};
ghost use Rattle.lf_semantics.specs.Environments.{IsEnvironment, IsRow, recorded_names, recorded_row as row_recorded, rule_row as row_of_rule};
ghost use Rattle.lf_semantics.specs.Listing.{IsListing, Listing};
ghost use Rattle.lf_semantics.specs.RowTable.{row_of as row_in};
ghost use Rattle.lf_trials.specs.Forks.{has_passing};
ghost use Rattle.lf_forks.specs.views.Holding.{test_of};
ghost use Rattle.lf_built.specs.views.PartRows.{part_rows as rows_of_parts};
ghost use Rattle.lf_built.specs.views.RuleRows.{AreRowsOf, IsRowOf, IsStored, own_or};
ghost use Rattle.lf_built.specs.views.Unsaid.{AreSought};

use crate::part_rows::PartRows;
use crate::unsaid::SoughtNames;
use lf_ast::Rule;
use lf_base::{Memory, Seq, Text};
use lf_classes::{Row, TextSet, Universe};
use lf_deps::Sources;
use lf_fix::{make_recorded, rule_row_by};
use lf_flow::{Env, part_rows};
use lf_forks::Forks;
use std::alloc::Global;

/// The number of the label `__name__`.
const METRIC: u32 = 0;

/// How many names of a rule are taken to be those of its rows. A row that has none of them takes a look at each in vain, and a rule may select thousands.
const MOST_LIKELY: usize = 8;

/// What is told of the parts of a rule's expression, the names that were sought for its selectors, and the rows of the rule and of what it stores. The row of a rule is that of
/// the whole expression where it isn't told, and that of what it stores is the row of its name in the environment where it isn't told. Of an alert, which stores nothing, no row
/// is kept.
#[derive(Drop)]
pub struct RuleRow {
    pub(crate) parts: PartRows,
    pub(crate) names: SoughtNames,
    pub(crate) own: Option<Row>,
    pub(crate) recorded: Option<Row>,
}

impl RuleRow {
    /// That of the rule with a number, counted from 0. Rules are told of one by one, in any order.
    pub fn of(
        alloc: Global,
        universe: &Universe,
        env: &Env,
        rules: &Seq<Rule>,
        sources: &Sources,
        forks: &Forks,
        number: usize,
    ) -> Result<RuleRow, Memory>
        requires env { IsEnvironment universe.now env.now }
        requires sources { IsSourcesOf (rule_trees rules.now) sources.now }
        requires rule { number < length rules.now }
        ensures { (r : RuleTree) → slice_get (rule_trees rules.now) number ≡ Some r → IfOk result (IsRowOf universe.now env.now forks.now (rule_trees rules.now) r) }
    {
        let rule = rules.get(number);
        let rows = part_rows(alloc, universe, env, &rule.expr)?;
        let rows = rows.as_slice();
        RuleRow::by(alloc, universe, env, rules, sources, forks, number, rows)
    }

    /// The same, by the rows of the rule's expression and of all parts in it.
    pub fn by(
        alloc: Global,
        universe: &Universe,
        env: &Env,
        rules: &Seq<Rule>,
        sources: &Sources,
        forks: &Forks,
        number: usize,
        rows: &[Row],
    ) -> Result<RuleRow, Memory>
        requires env { IsEnvironment universe.now env.now }
        requires sources { IsSourcesOf (rule_trees rules.now) sources.now }
        requires rule { number < length rules.now }
        requires rows { (r : RuleTree) → slice_get (rule_trees rules.now) number ≡ Some r → rows.now ≡ map (row_in universe.now env.now) (nodes r.expr) }
        ensures { (r : RuleTree) → slice_get (rule_trees rules.now) number ≡ Some r → IfOk result (IsRowOf universe.now env.now forks.now (rule_trees rules.now) r) }
    {
        let selected = sources.selected_by(number);
        let rule = rules.get(number);
        let names = names_of(alloc, universe, sources.recorded(), selected, rule)?;
        let likely = likely_names(alloc, universe, selected)?;
        let likely = likely.as_slice();
        let row = row_of(alloc, universe, env, forks, rule, rows, names, likely)?;
        Ok(row)
    }
}

/// What is told of each rule.
pub fn rule_rows(
    alloc: Global,
    universe: &Universe,
    env: &Env,
    rules: &Seq<Rule>,
    sources: &Sources,
    forks: &Forks,
) -> Result<Seq<RuleRow>, Memory>
    requires env { IsEnvironment universe.now env.now }
    requires sources { IsSourcesOf (rule_trees rules.now) sources.now }
    ensures { IfOk result (AreRowsOf universe.now env.now forks.now (rule_trees rules.now)) }
{
    let mut rows = Seq::new(alloc);
    for k in 0..rules.len() {
        let row = RuleRow::of(alloc, universe, env, rules, sources, forks, k)?;
        rows.push(row)?;
    }
    Ok(rows)
}

/// The names that are sought for the selectors of a rule.
fn names_of(
    alloc: Global,
    universe: &Universe,
    recorded: &TextSet,
    selected: &[Option<Text>],
    rule: &Rule,
) -> Result<SoughtNames, Memory>
    ensures { (rules : List RuleTree) → recorded.now ≡ recorded_names rules → IfOk result (AreSought universe.now rules (nodes (rule_tree rule.now).expr)) }
{
    // For what its contract says of the universe.
    let _labels = universe.labels();
    SoughtNames::of(alloc, universe, recorded, selected, &rule.expr)
}

/// What is told of a rule, with the names that were sought for its selectors. Its own row, where it isn't empty, is that of its whole expression, which stands first among those of the parts and isn't copied.
fn row_of(
    alloc: Global,
    universe: &Universe,
    env: &Env,
    forks: &Forks,
    rule: &Rule,
    rows: &[Row],
    names: SoughtNames,
    likely: &[u32],
) -> Result<RuleRow, Memory>
    requires env { IsEnvironment universe.now env.now }
    requires rows { rows.now ≡ map (row_in universe.now env.now) (nodes (rule_tree rule.now).expr) }
    ensures names { IfOk result (λ row. row.names ≡ names) }
    ensures parts { IfOk result (λ row. row.parts ≡ rows_of_parts universe.now env.now (has_passing (test_of forks.now)) (nodes (rule_tree rule.now).expr)) }
    ensures own { IfOk result (λ row. own_or row.own (row_in universe.now env.now (rule_tree rule.now).expr) ≡ row_of_rule universe.now env.now (rule_tree rule.now)) }
    ensures recorded { IfOk result (λ row. (rule_tree rule.now).alert ≡ false → IsStored env.now (rule_tree rule.now).name (row_recorded universe.now env.now (rule_tree rule.now)) row.recorded) }
{
    // For what its contract says of the universe.
    let _labels = universe.labels();
    let whole = rule_row_by(alloc, universe, rule, &rows[0])?;
    let parts = PartRows::of(alloc, universe, forks, &rule.expr, rows, likely)?;
    let own = if_empty(&whole)?;
    let recorded = stored_row(universe, env, rule, whole);
    Ok(RuleRow {
        parts,
        names,
        own,
        recorded,
    })
}

/// A row where it is empty, and else nothing.
fn if_empty(row: &Row) -> Result<Option<Row>, Memory>
    ensures { IfOk result (λ own. own ≡ cond (is_live row.now) None (Some row.now)) }
{
    if row.is_empty() {
        Ok(Some(row.copy()?))
    } else {
        Ok(None)
    }
}

/// The row of what a rule stores, by its own, where it is to be kept: that of an alert isn't asked for, and that of a name which no other rule records is in the environment.
fn stored_row(universe: &Universe, env: &Env, rule: &Rule, mut row: Row) -> Option<Row>
    requires listing { IsListing universe.now }
    requires env { IsEnvironment universe.now env.now }
    requires row { row ≡ row_of_rule universe.now env.now (rule_tree rule.now) }
    ensures { rule.now.alert ≡ false → IsStored env.now (rule_tree rule.now).name (row_recorded universe.now env.now (rule_tree rule.now)) result }
{
    if rule.alert {
        return None;
    }
    make_recorded(universe, &mut row, rule);
    unless_in(env, rule.name.as_str(), row)
}

/// A row, unless it is that of a name in the environment.
fn unless_in(env: &Env, name: &str, row: Row) -> Option<Row>
    requires rows { (u : Listing) × IsEnvironment u env.now × IsRow u row }
    ensures { IsStored env.now name.now row result }
{
    match env.row(name) {
        Some(other) => unless_same(row, other),
        None => Some(row),
    }
}

/// A row, unless another one is the same.
fn unless_same(row: Row, other: &Row) -> Option<Row>
    requires rows { (u : Listing) × IsRow u row × IsRow u other.now }
    ensures own { IfSome result (λ kept. kept ≡ row) }
    ensures same { IfNone result (other.now ≡ row) }
{
    if other.covers(&row) && row.covers(other) {
        return None;
    }
    Some(row)
}

/// The classes of the first few names that a rule selects, each once. Rows of its parts are likely to have them, and which these are changes only how long it takes.
fn likely_names(
    alloc: Global,
    universe: &Universe,
    selected: &[Option<Text>],
) -> Result<Vec<u32>, Memory>
    ensures { IfOk result (λ likely. length likely.items ≤ 8) }
{
    // For what its contract says of the universe.
    let _labels = universe.labels();
    let mut likely: Vec<u32> = Vec::new(alloc);
    for name in selected {
        if likely.len() == MOST_LIKELY {
            break;
        }
        if let Some(name) = name {
            let class = universe.class_of(METRIC, name.as_str());
            if !likely.as_slice().contains(&class) {
                likely.push(class)?;
            }
        }
    }
    Ok(likely)
}
