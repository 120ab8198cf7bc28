//! What is found of a rule.
ghost use Rattle.std.specs.Prelude.{◌≡◌, ◌<◌, ◌+◌, ◌++◌, List, Some, false, not, length, map, slice_get, IfNone, IfOk, IfSome};
ghost use Rattle.std.specs.List.{Contains, list_any};
ghost use Rattle.std.specs.List.Sorted.{IsNonDecreasing};
ghost use Rattle.lf_ast.specs.Rules.{RuleTree, rule_tree, rule_trees};
ghost use Rattle.lf_ast.specs.Tree.{nodes, tree};
ghost use Rattle.lf_ast.specs.declared.rule.Template.{Template};
ghost use Rattle.lf_ast.specs.views.Walks.{trees_at};
ghost use Rattle.lf_semantics.specs.ClassRows.{HasShape, is_live};
ghost use Rattle.lf_semantics.specs.Environments.{IsEnvironment, IsLeast, rule_row as row_of_rule};
ghost use Rattle.lf_semantics.specs.Listing.{IsListing};
ghost use Rattle.lf_checks.specs.AlertTemplate.{HaveSources};
ghost use Rattle.lf_checks.specs.Files.{File, StandIn};
ghost use Rattle.lf_checks.specs.Findings.{AreFindingsIn, IsFindingIn};
ghost use Rattle.lf_checks.specs.views.Checked.{IsOfParts, IsOfRule};
ghost use Rattle.lf_checks.specs.views.Recorded.{AreOf, AreOfSome};
ghost use Rattle.lf_semantics.specs.RowTable.{Environment, row_of, scraped_row};
ghost use Rattle.lf_checks.specs.views.Sought.{seeks_labels};
ghost use Rattle.lf_checks.specs.views.Shown.{AreNumbered, Lists, ListsAlone, all_shown};

use crate::alert_comparison::{alert_comparison, condition_of};
use crate::alert_template::alert_template;
use crate::expr_empty::expr_empty;
use crate::expr_type::expr_type;
use crate::match_label::{match_label, sought_rows};
use crate::ordering::in_order;
use crate::promql_regexp::promql_regexp;
use crate::rule_dependency::{RecordedNames, rule_dependency};
use crate::rule_duplicate::{first_rules, rule_duplicate};
use crate::rule_label::rule_label;
use lf_ast::walk::nodes_of;
use lf_ast::{Expr, Finding, Rule};
use lf_base::{Memory, Seq};
use lf_classes::{Row, Universe};
use lf_fix::{rule_row_by, rule_row_with};
use lf_flow::{Env, part_rows_with, scraped_if_read};
use std::alloc::Global;
use std::marker::Model;

/// Finds what the checks tell of rules. What all rules share is made once.
#[derive(Drop)]
pub struct Checker<'a> {
    universe: &'a Universe,
    env: &'a Env,
    rules: &'a Seq<Rule>,
    recorded: RecordedNames,
    firsts: Vec<Option<u32>>,
    scraped: Option<Row>,
}

impl<'a> Model for Checker<'a> {
    ghost use Rattle.std.specs.Coded.{codes};
    ghost use Rattle.std.specs.Prelude.{◌≡◌, IfSome};
    ghost use Rattle.lf_ast.specs.Rules.{rule_trees};
    ghost use Rattle.lf_ast.specs.contracts.rule.Rule as rule;
    ghost use Rattle.lf_semantics.specs.Listing.{IsListing};
    ghost use Rattle.lf_semantics.specs.RowTable.{scraped_row};
    ghost use Rattle.lf_checks.specs.views.Checked.{CheckerView};
    ghost use Rattle.lf_checks.specs.views.Duplicates.{AreFirsts};
    ghost use Rattle.lf_checks.specs.views.Recorded.{AreOf};

    ghost Value = { CheckerView };

    ghost coded = { Prim.hlevel (codes, rule.the_row.coded) };

    ghost view = { λ c. record { universe = c.universe.now; env = c.env.now; rules = c.rules.now } };

    ghost invariant = { λ c. IsListing c.universe.now × AreOf (rule_trees c.rules.now) c.recorded × AreFirsts (rule_trees c.rules.now) c.firsts.items × IfSome c.scraped (λ row. row ≡ scraped_row c.universe.now c.env.now) };
}

impl<'a> Checker<'a> {
    /// One for rules, with a universe and an environment of theirs. The universe may be built of more rules than these.
    pub fn new(
        alloc: Global,
        universe: &'a Universe,
        env: &'a Env,
        rules: &'a Seq<Rule>,
    ) -> Result<Checker<'a>, Memory>
        ensures { IfOk result (λ checker. checker ≡ record { universe = universe.now; env = env.now; rules = rules.now }) }
    {
        let recorded = RecordedNames::of(alloc, rules)?;
        Checker::by(alloc, universe, env, rules, recorded)
    }

    /// The same, by the names that the rules record and what they read.
    pub fn by(
        alloc: Global,
        universe: &'a Universe,
        env: &'a Env,
        rules: &'a Seq<Rule>,
        recorded: RecordedNames,
    ) -> Result<Checker<'a>, Memory>
        requires { AreOf (rule_trees rules.now) recorded }
        ensures { IfOk result (λ checker. checker ≡ record { universe = universe.now; env = env.now; rules = rules.now }) }
    {
        // For what its contract says of the universe.
        let _labels = universe.labels();
        let firsts = first_rules(alloc, rules, recorded.sources())?;
        let scraped = scraped_if_read(alloc, universe, env, recorded.sources())?;
        Ok(Checker {
            universe,
            env,
            rules,
            recorded,
            firsts,
            scraped,
        })
    }

    /// The names that the rules record, and what they read.
    pub fn recorded(&self) -> &RecordedNames
        ensures { AreOf (rule_trees self.now.rules) result.now }
    {
        &self.recorded
    }

    /// The rows of the expression of the rule with this number, counted from 0, and of all parts in it.
    pub fn part_rows(&self, alloc: Global, i: u32) -> Result<Vec<Row>, Memory>
        requires env { IsEnvironment self.now.universe self.now.env }
        requires rule { i < length self.now.rules }
        ensures { (r : RuleTree) → slice_get (rule_trees self.now.rules) i ≡ Some r → IfOk result (λ rows. rows.items ≡ map (row_of self.now.universe self.now.env) (nodes r.expr)) }
    {
        let rule = self.rules.get(i as usize);
        let scraped = self.scraped.as_ref();
        part_rows_with(alloc, self.universe, self.env, scraped, &rule.expr)
    }

    /// The findings of the rule with this number, counted from 0, in their order and each once.
    pub fn rule(&self, alloc: Global, i: u32) -> Result<Seq<Finding>, Memory>
        requires least { IsLeast self.now.universe (rule_trees self.now.rules) self.now.env }
        requires sources { HaveSources (rule_trees self.now.rules) }
        requires rule { i < length self.now.rules }
        ensures findings { (files : List File) → StandIn files (rule_trees self.now.rules) → IfOk result (λ found. AreFindingsIn files self.now.universe (rule_trees self.now.rules) self.now.env i (all_shown files (rule_trees self.now.rules) found)) }
        ensures numbers { (files : List File) → IfOk result (AreNumbered files (rule_trees self.now.rules) i) }
    {
        let (found, _empty) = self.rule_and_emptiness(alloc, i)?;
        Ok(found)
    }

    /// The same, and whether the row of the rule is empty, which is made for them.
    pub fn rule_and_emptiness(&self, alloc: Global, i: u32) -> Result<(Seq<Finding>, bool), Memory>
        requires least { IsLeast self.now.universe (rule_trees self.now.rules) self.now.env }
        requires sources { HaveSources (rule_trees self.now.rules) }
        requires rule { i < length self.now.rules }
        ensures findings { (files : List File) → StandIn files (rule_trees self.now.rules) → IfOk result (λ told. AreFindingsIn files self.now.universe (rule_trees self.now.rules) self.now.env i (all_shown files (rule_trees self.now.rules) told.0)) }
        ensures numbers { (files : List File) → IfOk result (λ told. AreNumbered files (rule_trees self.now.rules) i told.0) }
        ensures empty { (r : RuleTree) → slice_get (rule_trees self.now.rules) i ≡ Some r → IfOk result (λ told. told.1 ≡ not (is_live (row_of_rule self.now.universe self.now.env r))) }
    {
        let (found, empty) = self.found(alloc, i, None)?;
        let sorted = in_order(alloc, found)?;
        Ok((sorted, empty))
    }

    /// The same findings, by the rows of the rule's expression and of all parts in it, where they were made for something else.
    pub fn rule_by(&self, alloc: Global, i: u32, rows: Vec<Row>) -> Result<Seq<Finding>, Memory>
        requires least { IsLeast self.now.universe (rule_trees self.now.rules) self.now.env }
        requires sources { HaveSources (rule_trees self.now.rules) }
        requires rule { i < length self.now.rules }
        requires rows { (r : RuleTree) → slice_get (rule_trees self.now.rules) i ≡ Some r → rows.items ≡ map (row_of self.now.universe self.now.env) (nodes r.expr) }
        ensures findings { (files : List File) → StandIn files (rule_trees self.now.rules) → IfOk result (λ found. AreFindingsIn files self.now.universe (rule_trees self.now.rules) self.now.env i (all_shown files (rule_trees self.now.rules) found)) }
        ensures numbers { (files : List File) → IfOk result (AreNumbered files (rule_trees self.now.rules) i) }
    {
        let (found, _empty) = self.found(alloc, i, Some(rows))?;
        let sorted = in_order(alloc, found)?;
        Ok(sorted)
    }

    /// What is found of a rule, check by check, and whether its row is empty. The rows of its expression and of all parts in it are taken where they were made.
    fn found(
        &self,
        alloc: Global,
        i: u32,
        made: Option<Vec<Row>>,
    ) -> Result<(Vec<Finding>, bool), Memory>
        requires env { IsEnvironment self.now.universe self.now.env }
        requires sources { HaveSources (rule_trees self.now.rules) }
        requires rule { i < length self.now.rules }
        requires made { IfSome made (λ all. (r : RuleTree) → slice_get (rule_trees self.now.rules) i ≡ Some r → all.items ≡ map (row_of self.now.universe self.now.env) (nodes r.expr)) }
        ensures findings { IfOk result (λ found. (files : List File) → StandIn files (rule_trees self.now.rules) → Lists files (rule_trees self.now.rules) (IsFindingIn files self.now.universe (rule_trees self.now.rules) self.now.env i) found.0.items) }
        ensures numbers { (files : List File) → IfOk result (λ found. AreNumbered files (rule_trees self.now.rules) i found.0.items) }
        ensures empty { (r : RuleTree) → slice_get (rule_trees self.now.rules) i ≡ Some r → IfOk result (λ found. found.1 ≡ not (is_live (row_of_rule self.now.universe self.now.env r))) }
    {
        let rule = self.rules.get(i as usize);
        let nodes = nodes_of(alloc, &rule.expr)?;
        let exprs = nodes.as_slice();
        let scraped = self.scraped.as_ref();
        let rows = sought_rows(alloc, self.universe, self.env, scraped, rule, exprs, made)?;
        let row = own_row(alloc, self.universe, self.env, scraped, rule, &rows)?;
        let own = of_rule(alloc, self.universe, &row, rule)?;
        let parts = of_parts(alloc, self.universe, &self.recorded, rule, exprs, rows)?;
        let same = rule_duplicate(alloc, self.firsts[i as usize], rule)?;
        let two = both(own, parts)?;
        let all = both(two, same)?;
        Ok((all, row.is_empty()))
    }
}

/// The row of a rule, by those of its expression and of all parts in it, if they were made.
fn own_row(
    alloc: Global,
    universe: &Universe,
    env: &Env,
    scraped: Option<&Row>,
    rule: &Rule,
    rows: &Option<Vec<Row>>,
) -> Result<Row, Memory>
    requires env { IsEnvironment universe.now env.now }
    requires scraped { IfSome scraped (λ row. row.now ≡ scraped_row universe.now env.now) }
    requires rows { IfSome rows.now (λ all. all.items ≡ map (row_of universe.now env.now) (nodes (rule_tree rule.now).expr)) }
    ensures { IfOk result (λ row. row ≡ row_of_rule universe.now env.now (rule_tree rule.now)) }
{
    match rows {
        Some(rows) => rule_row_by(alloc, universe, rule, &rows[0]),
        None => rule_row_with(alloc, universe, env, scraped, rule),
    }
}

/// What is found by a rule itself and its row.
fn of_rule(
    alloc: Global,
    universe: &Universe,
    row: &Row,
    rule: &Rule,
) -> Result<Vec<Finding>, Memory>
    requires shape { HasShape universe.now row.now }
    requires sources { (t : Template) → Contains rule.now.templates t → (length t.from ≡ length t.text + 1) × IsNonDecreasing t.from }
    ensures { IfOk result (λ found. ListsAlone (IsOfRule universe.now row.now (rule_tree rule.now)) found.items) }
{
    let condition = condition_of(alloc, &rule.expr)?;
    let comparisons = alert_comparison(alloc, rule, condition.conditional)?;
    let templates = alert_template(alloc, universe, row, rule)?;
    let empty = expr_empty(alloc, row, rule, condition.form)?;
    let types = expr_type(alloc, rule, condition.form)?;
    let labels = rule_label(alloc, universe, row, rule)?;
    let two = both(comparisons, templates)?;
    let three = both(two, empty)?;
    let four = both(three, types)?;
    both(four, labels)
}

/// What is found by a rule's expression and all parts in it, by their rows where one seeks a label.
fn of_parts(
    alloc: Global,
    universe: &Universe,
    recorded: &RecordedNames,
    rule: &Rule,
    exprs: &[&Expr],
    rows: Option<Vec<Row>>,
) -> Result<Vec<Finding>, Memory>
    requires listing { IsListing universe.now }
    requires recorded { AreOfSome recorded.now }
    requires parts { trees_at exprs.now ≡ nodes (rule_tree rule.now).expr }
    requires some { IfSome rows (λ all. (env : Environment) × IsEnvironment universe.now env × (all.items ≡ map (row_of universe.now env) (nodes (rule_tree rule.now).expr))) }
    requires none { IfNone rows (list_any (λ part. seeks_labels (tree part.now)) exprs.now ≡ false) }
    ensures { (env : Environment) → IfSome rows (λ all. all.items ≡ map (row_of universe.now env) (nodes (rule_tree rule.now).expr)) → (rules : List RuleTree) → AreOf rules recorded.now → IfOk result (λ found. ListsAlone (IsOfParts universe.now env rules (rule_tree rule.now)) found.items) }
{
    let dependencies = rule_dependency(alloc, recorded, rule, exprs)?;
    let patterns = promql_regexp(alloc, rule, exprs)?;
    let labels = match_label(alloc, universe, rule, exprs, rows)?;
    let two = both(dependencies, patterns)?;
    both(two, labels)
}

/// The findings of two lists.
fn both(mut found: Vec<Finding>, mut more: Vec<Finding>) -> Result<Vec<Finding>, Memory>
    ensures { IfOk result (λ all. all.items ≡ found.items ++ more.items) }
{
    found.append(&mut more)?;
    Ok(found)
}

/// The findings of the rule with a number, counted from 0, in their order and each once, by the labels and classes of the universe. For many rules a `Checker` is made once.
pub fn check_rule(
    alloc: Global,
    universe: &Universe,
    env: &Env,
    rules: &Seq<Rule>,
    i: u32,
) -> Result<Seq<Finding>, Memory>
    requires least { IsLeast universe.now (rule_trees rules.now) env.now }
    requires sources { HaveSources (rule_trees rules.now) }
    requires rule { i < length rules.now }
    ensures findings { (files : List File) → StandIn files (rule_trees rules.now) → IfOk result (λ found. AreFindingsIn files universe.now (rule_trees rules.now) env.now i (all_shown files (rule_trees rules.now) found)) }
    ensures numbers { (files : List File) → IfOk result (AreNumbered files (rule_trees rules.now) i) }
{
    let checker = Checker::new(alloc, universe, env, rules)?;
    checker.rule(alloc, i)
}
