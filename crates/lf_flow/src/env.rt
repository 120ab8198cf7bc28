//! The rows of recorded names.
ghost use Rattle.std.specs.Prelude.{◌≡◌, ◌↔◌, ◌≢◌, ◌<◌, length, map, replicate, None, Some, IfOk, IfSome, IfNone, true, false, IsTrue, not};
ghost use Rattle.std.specs.Option.{option_map};
ghost use Rattle.lf_ast.specs.Rules.{rule_trees};
ghost use Rattle.lf_semantics.specs.ClassRows.{Sets, bottom, join};
ghost use Rattle.lf_semantics.specs.Environments.{Leq, recorded_names};
ghost use Rattle.lf_semantics.specs.RowTable.{row_named};
ghost use Rattle.lf_flow.specs.Raising.{IsJoinOf, joined};

mod numbers;

use lf_ast::Rule;
use lf_base::{Memory, Seq};
use lf_classes::{Row, TextSet, Universe, recorded_names};
use std::alloc::Global;
use std::marker::Model;

/// The most recorded names that numbers of 32 bits tell apart.
const MOST_NAMES: usize = 4_294_967_295;

/// A row for each recorded name, in the order in which the names come first. Where a name stands is looked up in a map.
///
/// The join of all rows is kept as long as rows are only raised: many selectors without a name read it, and each would take as long as there are names to make it.
#[derive(Drop)]
pub struct Env {
    names: TextSet,
    rows: Vec<Row>,
    all: Option<Row>,
}

impl Model for Env {
    ghost use Rattle.lf_semantics.specs.RowTable.{Environment};
    ghost use Rattle.lf_flow.specs.Raising.{AreEntries, entries};

    ghost Value = { Environment };

    ghost view = { λ env. entries env.names env.rows.items };

    ghost invariant = { λ env. AreEntries env.names env.rows.items env.all };
}

impl Env {
    /// The environment of rules in which no recorded name has a sample. Want of memory where the number of a name doesn't fit a `u32`.
    pub fn bottom(alloc: Global, universe: &Universe, rules: &Seq<Rule>) -> Result<Env, Memory>
        ensures { IfOk result (λ env. env ≡ map (λ name. (name, bottom universe.now)) (recorded_names (rule_trees rules.now))) }
    {
        // For what its contract says of the universe.
        let _labels = universe.labels();
        let names = recorded_names(alloc, rules.as_slice())?;
        let count = names.len();
        if count > MOST_NAMES {
            return Err(Memory);
        }
        let rows = empty_rows(alloc, universe, count)?;
        let all = Some(Row::empty(alloc, universe)?);
        Ok(Env { names, rows, all })
    }

    /// The row of a name, and none where no rule records it.
    pub fn row(&self, name: &str) -> Option<&Row>
        ensures some { IfSome result (λ row. row_named self.now name.now ≡ Some row.now) }
        ensures none { IfNone result (row_named self.now name.now ≡ None) }
    {
        let place = self.names.place(name);
        if place < self.rows.len() {
            Some(&self.rows[place])
        } else {
            None
        }
    }

    /// The recorded names.
    pub(crate) fn recorded(&self) -> &TextSet
        ensures { result.now ≡ map (λ entry. entry.0) self.now }
    {
        &self.names
    }

    /// The rows of the recorded names, in the order of the names.
    pub(crate) fn rows(&self) -> &[Row]
        ensures { result.now ≡ map (λ entry. entry.1) self.now }
    {
        self.rows.as_slice()
    }

    /// The join of the rows of all recorded names, if it is kept and there is a name.
    pub(crate) fn all(&self) -> Option<&Row>
        ensures { IfSome result (λ all. IsJoinOf (map (λ entry. entry.1) self.now) all.now × (0 < length self.now)) }
    {
        if self.rows.len() == 0 {
            return None;
        }
        match &self.all {
            Some(all) => Some(all),
            None => None,
        }
    }

    /// Joins a row of the universe to the row of a recorded name, and says whether this added a class. It takes no memory.
    pub fn raise(&mut self, name: &str, row: &Row) -> bool
        requires recorded { row_named self.old name.now ≢ None }
        requires shape { (other : Sets) → row_named self.old name.now ≡ Some other → map length other ≡ map length row.now }
        ensures joined { self.new ≡ joined name.now row.now self.old }
        ensures added { (other : Sets) → row_named self.old name.now ≡ Some other → IsTrue (not result) ↔ Leq row.now other }
        ensures same { result ≡ false → self.new ≡ self.old }
    {
        // For what is known of every row.
        let _empty = row.is_empty();
        join_kept(&mut self.all, row);
        let place = self.names.place(name);
        join(&mut self.rows[place], row)
    }
}

/// Joins a row to another, and says whether this added a class.
fn join(own: &mut Row, row: &Row) -> bool
    requires { map length own.old ≡ map length row.now }
    ensures joined { own.new ≡ join own.old row.now }
    ensures added { IsTrue (not result) ↔ Leq row.now own.old }
    ensures same { result ≡ false → own.new ≡ own.old }
{
    if own.covers(row) {
        return false;
    }
    own.join(row);
    true
}

/// Joins a row to another one that is kept.
fn join_kept(kept: &mut Option<Row>, row: &Row)
    requires { IfSome kept.old (λ all. map length all ≡ map length row.now) }
    ensures { kept.new ≡ option_map (λ all. join all row.now) kept.old }
{
    match kept {
        Some(all) => all.join(row),
        None => {}
    }
}

/// As many empty rows.
fn empty_rows(alloc: Global, universe: &Universe, count: usize) -> Result<Vec<Row>, Memory>
    ensures { IfOk result (λ rows. rows.items ≡ replicate count (bottom universe.now)) }
{
    let mut rows = Vec::with_capacity(alloc, count)?;
    for _ in 0..count {
        rows.push(Row::empty(alloc, universe)?)?;
    }
    Ok(rows)
}
