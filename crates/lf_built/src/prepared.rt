//! What the built worlds of rules share.
ghost use Rattle.std.specs.Prelude.{◌≡◌, ◌+◌, ◌<◌, ◌^◌, Some, false, length, map, slice_get, IfOk};
ghost use Rattle.lf_ast.specs.Rules.{RuleTree, rule_trees};
ghost use Rattle.lf_deps.specs.views.Sources.{IsSourcesOf};
ghost use Rattle.lf_semantics.specs.Environments.{CoversRules, IsEnvironment, recorded_row as row_recorded, rule_row as row_of_rule};
ghost use Rattle.lf_semantics.specs.Parts.{is_scalar_part};
ghost use Rattle.lf_semantics.specs.RowTable.{row_of};
ghost use Rattle.lf_trials.specs.Candidates.{labels_in};
ghost use Rattle.lf_candidates.specs.views.Packed.{packed};
ghost use Rattle.lf_built.specs.views.Indexed.{IsPrepared, IsPreparedFor, env_of, forks_of, trees_of, universe_of};
ghost use Rattle.lf_built.specs.declared.row_making.RuleRow.{RuleRow};
ghost use Rattle.lf_built.specs.views.Marking.{marks_at, set_by};
ghost use Rattle.lf_built.specs.views.Places.{size};
ghost use Rattle.lf_built.specs.views.RuleRows.{AreRowsOf};
ghost use Rattle.lf_built.specs.views.Spots.{IsSpot, tree_at};
ghost use Rattle.lf_built.specs.views.Unsaid.{IsSought};

use crate::marking::{NodeMarks, marks_in_rules, set_by_rules};
use crate::part_rows::PartRows;
use crate::row_making::{RuleRow, rule_rows};
use crate::spots::Spot;
use crate::unsaid::{SoughtName, SoughtNames};
use lf_ast::Rule;
use lf_base::{Memory, Seq, Text};
use lf_candidates::{PackedRow, label_names};
use lf_classes::{Row, Universe};
use lf_deps::Sources;
use lf_flow::Env;
use lf_forks::Forks;
use std::alloc::Global;

/// What the built worlds of rules share: the index of the rules, the names of the labels, what is told of the parts of each rule's expression, the names that were sought for
/// its selectors, what is marked of the labels for these parts and for each rule, and the rows of each rule and of what it stores. The row of a rule is that of its whole
/// expression where it isn't told, and that of what it stores is the row of its name in the environment where it isn't told.
#[derive(Drop)]
pub struct Prepared<'a> {
    pub(crate) universe: &'a Universe,
    pub(crate) env: &'a Env,
    pub(crate) rules: &'a Seq<Rule>,
    pub(crate) sources: &'a Sources,
    pub(crate) forks: &'a Forks,
    pub(crate) names: Vec<Text>,
    pub(crate) parts: Vec<PartRows>,
    pub(crate) sought: Vec<SoughtNames>,
    pub(crate) marks: Vec<Seq<NodeMarks>>,
    pub(crate) set: Vec<Seq<bool>>,
    pub(crate) rows: Vec<Option<Row>>,
    pub(crate) recorded: Vec<Option<Row>>,
}

/// What is told of the parts of rules' expressions, the names that were sought, and the rows of the rules and of what they store, each in a list of its own.
#[derive(Drop)]
struct RowLists {
    parts: Vec<PartRows>,
    sought: Vec<SoughtNames>,
    own: Vec<Option<Row>>,
    recorded: Vec<Option<Row>>,
}

impl<'a> Prepared<'a> {
    /// For rules, and their universe, environment and forks.
    pub fn of(
        alloc: Global,
        universe: &'a Universe,
        env: &'a Env,
        rules: &'a Seq<Rule>,
        sources: &'a Sources,
        forks: &'a Forks,
    ) -> Result<Prepared<'a>, Memory>
        requires environment { IsEnvironment universe.now env.now }
        requires covers { CoversRules universe.now (rule_trees rules.now) }
        requires sources { IsSourcesOf (rule_trees rules.now) sources.now }
        ensures { IfOk result (IsPreparedFor universe.now env.now rules.now forks.now) }
    {
        let rows = rule_rows(alloc, universe, env, rules, sources, forks)?;
        Prepared::by(alloc, universe, env, rules, sources, forks, rows)
    }

    /// The same, by what is told of each rule.
    pub fn by(
        alloc: Global,
        universe: &'a Universe,
        env: &'a Env,
        rules: &'a Seq<Rule>,
        sources: &'a Sources,
        forks: &'a Forks,
        rows: Seq<RuleRow>,
    ) -> Result<Prepared<'a>, Memory>
        requires environment { IsEnvironment universe.now env.now }
        requires covers { CoversRules universe.now (rule_trees rules.now) }
        requires sources { IsSourcesOf (rule_trees rules.now) sources.now }
        requires rows { AreRowsOf universe.now env.now forks.now (rule_trees rules.now) rows }
        ensures { IfOk result (IsPreparedFor universe.now env.now rules.now forks.now) }
    {
        let _labels = universe.labels();
        let names = label_names(alloc, universe)?;
        let labels = names.as_slice();
        let all = rules.as_slice();
        let marks = marks_in_rules(alloc, labels, all)?;
        let set = set_by_rules(alloc, labels, all)?;
        let RowLists {
            parts,
            sought,
            own,
            recorded,
        } = apart(alloc, rows)?;
        Ok(Prepared {
            universe,
            env,
            rules,
            sources,
            forks,
            names,
            parts,
            sought,
            marks,
            set,
            rows: own,
            recorded,
        })
    }

    /// The row of an expression.
    pub(crate) fn row(&self, spot: &Spot<'a>) -> Result<Row, Memory>
        requires known { IsPrepared self.now }
        requires spot { IsSpot (trees_of self.now) spot.now }
        ensures { IfOk result (λ row. row ≡ row_of (universe_of self.now) (env_of self.now) (tree_at spot.now)) }
    {
        self.parts[spot.rule].row(self.universe, spot.place)
    }

    /// The row of an expression, packed.
    pub(crate) fn packed_row(&self, spot: &Spot<'a>) -> &PackedRow
        requires known { IsPrepared self.now }
        requires spot { IsSpot (trees_of self.now) spot.now }
        ensures { result.now ≡ packed (universe_of self.now) (row_of (universe_of self.now) (env_of self.now) (tree_at spot.now)) }
    {
        self.parts[spot.rule].packed_row(spot.place)
    }

    /// The name that was sought for a selector, if it was.
    pub(crate) fn sought_name(&self, spot: &Spot<'a>) -> Option<SoughtName>
        requires known { IsPrepared self.now }
        requires spot { IsSpot (trees_of self.now) spot.now }
        ensures { IsSought (universe_of self.now) (trees_of self.now) (tree_at spot.now) result }
    {
        self.sought[spot.rule].at(spot.place)
    }

    /// How many parts there are in an expression, with itself.
    pub(crate) fn size(&self, spot: &Spot<'a>) -> usize
        requires known { IsPrepared self.now }
        requires spot { IsSpot (trees_of self.now) spot.now }
        ensures count { result ≡ size (tree_at spot.now) }
        ensures small { spot.now.place + result < 2 ^ 63 }
    {
        let parts = &self.parts[spot.rule];
        let _all = parts.len();
        parts.size(spot.place)
    }

    /// Whether an expression is a scalar.
    pub(crate) fn is_scalar(&self, spot: &Spot<'a>) -> bool
        requires known { IsPrepared self.now }
        requires spot { IsSpot (trees_of self.now) spot.now }
        ensures { result ≡ is_scalar_part (tree_at spot.now) }
    {
        self.parts[spot.rule].is_scalar(spot.place)
    }

    /// Whether an expression holds a fork.
    pub(crate) fn is_fork(&self, spot: &Spot<'a>) -> bool
        requires known { IsPrepared self.now }
        requires spot { IsSpot (trees_of self.now) spot.now }
        ensures { result ≡ forks_of self.now (tree_at spot.now) }
    {
        self.parts[spot.rule].is_fork(spot.place)
    }

    /// What is marked of the labels for an expression.
    pub(crate) fn marks(&self, spot: &Spot<'a>) -> &NodeMarks
        requires known { IsPrepared self.now }
        requires spot { IsSpot (trees_of self.now) spot.now }
        ensures { result.now ≡ marks_at (labels_in (universe_of self.now)) (tree_at spot.now) }
    {
        let marks = &self.marks[spot.rule];
        marks.get(spot.place)
    }

    /// The labels that a rule sets, marked.
    pub(crate) fn set_by(&self, rule: usize) -> &[bool]
        requires known { IsPrepared self.now }
        requires rule { rule < length self.now.rules.now }
        ensures { (r : RuleTree) → slice_get (trees_of self.now) rule ≡ Some r → result.now ≡ set_by (labels_in (universe_of self.now)) r }
    {
        self.set[rule].as_slice()
    }

    /// The row of a rule.
    pub fn rule_row(&self, rule: usize) -> Result<Row, Memory>
        requires known { IsPrepared self.now }
        requires rule { rule < length self.now.rules.now }
        ensures { (r : RuleTree) → slice_get (trees_of self.now) rule ≡ Some r → IfOk result (λ row. row ≡ row_of_rule (universe_of self.now) (env_of self.now) r) }
    {
        match &self.rows[rule] {
            Some(row) => row.copy(),
            None => self.parts[rule].row(self.universe, 0),
        }
    }

    /// The row of what a recording rule stores.
    pub(crate) fn recorded_row(&self, rule: usize) -> &Row
        requires known { IsPrepared self.now }
        requires rule { (r : RuleTree) × (slice_get (trees_of self.now) rule ≡ Some r) × (r.alert ≡ false) }
        ensures { (r : RuleTree) → slice_get (trees_of self.now) rule ≡ Some r → result.now ≡ row_recorded (universe_of self.now) (env_of self.now) r }
    {
        match &self.recorded[rule] {
            Some(row) => row,
            None => self.env.row(self.rules.get(rule).name.as_str()).unwrap(),
        }
    }
}

/// What is told of the parts of rules' expressions, the names that were sought, and the rows of the rules and of what they store, each in a list of its own.
fn apart(alloc: Global, mut rows: Seq<RuleRow>) -> Result<RowLists, Memory>
    ensures parts { IfOk result (λ apart. apart.parts.items ≡ map (λ (row : RuleRow). row.parts) rows) }
    ensures sought { IfOk result (λ apart. apart.sought.items ≡ map (λ (row : RuleRow). row.names) rows) }
    ensures own { IfOk result (λ apart. apart.own.items ≡ map (λ (row : RuleRow). row.own) rows) }
    ensures recorded { IfOk result (λ apart. apart.recorded.items ≡ map (λ (row : RuleRow). row.recorded) rows) }
{
    let mut apart = RowLists {
        parts: Vec::with_capacity(alloc, rows.len())?,
        sought: Vec::with_capacity(alloc, rows.len())?,
        own: Vec::with_capacity(alloc, rows.len())?,
        recorded: Vec::with_capacity(alloc, rows.len())?,
    };
    while let Some(row) = rows.pop() {
        let RuleRow {
            parts,
            names,
            own,
            recorded,
        } = row;
        apart.parts.push(parts)?;
        apart.sought.push(names)?;
        apart.own.push(own)?;
        apart.recorded.push(recorded)?;
    }
    apart.parts.reverse();
    apart.sought.reverse();
    apart.own.reverse();
    apart.recorded.reverse();
    Ok(apart)
}
