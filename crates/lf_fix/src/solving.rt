//! The least environment, by rounds.
ghost use Rattle.std.specs.Prelude.{◌≡◌, ◌<◌, length, IfOk, IfSome};
ghost use Rattle.lf_ast.specs.Rules.{rule_trees};
ghost use Rattle.lf_semantics.specs.Environments.{CoversRules, IsEnvironmentOf, IsLeast};
ghost use Rattle.lf_semantics.specs.Listing.{IsListing};
ghost use Rattle.lf_deps.specs.Ordering.{IsOrder};
ghost use Rattle.lf_deps.specs.views.Sources.{IsSourcesOf};
ghost use Rattle.lf_fix.specs.views.Dependents.{IsIndexOf};
ghost use Rattle.lf_fix.specs.views.Rounds.{IsSeriesRow, OthersHold, Rises, StepTells, Tells, TellsOf, start};

use crate::dependents::Dependents;
use crate::recording::recorded_row_with;
use lf_ast::Rule;
use lf_base::choice::either;
use lf_base::{Memory, Seq};
use lf_classes::{Row, Universe};
use lf_deps::{Sources, order_of};
use lf_flow::{Env, scraped_if_read};
use std::alloc::Global;

/// The least environment of rules: for each recorded name the smallest row that what its rules store lies in.
///
/// Rules are computed in their order, in which a rule that reads no cyclic name comes behind all that it reads, and a rule again only after a row was raised that its
/// expression selects. Nothing within a scalar is looked at.
pub fn solve(alloc: Global, universe: &Universe, rules: &Seq<Rule>) -> Result<Env, Memory>
    requires { CoversRules universe.now (rule_trees rules.now) }
    ensures { IfOk result (IsLeast universe.now (rule_trees rules.now)) }
{
    let sources = Sources::of(alloc, rules)?;
    solve_by(alloc, universe, rules, &sources)
}

/// As `solve`, by the index of the same rules.
pub fn solve_by(
    alloc: Global,
    universe: &Universe,
    rules: &Seq<Rule>,
    sources: &Sources,
) -> Result<Env, Memory>
    requires covers { CoversRules universe.now (rule_trees rules.now) }
    requires sources { IsSourcesOf (rule_trees rules.now) sources.now }
    ensures { IfOk result (IsLeast universe.now (rule_trees rules.now)) }
{
    let dependents = Dependents::of(alloc, sources)?;
    let order = order_of(alloc, sources, rules)?;
    from_bottom(alloc, universe, rules, sources, &dependents, &order)
}

/// The same, by the rules that select each name and by the order of the rules. It begins where no row has a class.
fn from_bottom(
    alloc: Global,
    universe: &Universe,
    rules: &Seq<Rule>,
    sources: &Sources,
    dependents: &Dependents,
    order: &Seq<u32>,
) -> Result<Env, Memory>
    requires covers { CoversRules universe.now (rule_trees rules.now) }
    requires index { IsIndexOf (rule_trees rules.now) dependents.now }
    requires order { IsOrder (rule_trees rules.now) order.now }
    ensures { IfOk result (IsLeast universe.now (rule_trees rules.now)) }
{
    // For what its contract says of the universe.
    let _labels = universe.labels();
    let mut dirty = vec![in alloc; true; rules.len()]?;
    let env = Env::bottom(alloc, universe, rules)?;
    // It is the same in every environment of the rules.
    let scraped = scraped_if_read(alloc, universe, &env, sources)?;
    rounds(
        alloc,
        universe,
        rules,
        dependents,
        order,
        scraped.as_ref(),
        env,
        &mut dirty,
    )
}

/// Steps of all rules in their order, round by round, until one adds no class. At first each rule is dirty.
fn rounds(
    alloc: Global,
    universe: &Universe,
    rules: &Seq<Rule>,
    dependents: &Dependents,
    order: &Seq<u32>,
    scraped: Option<&Row>,
    mut env: Env,
    dirty: &mut [bool],
) -> Result<Env, Memory>
    requires listing { IsListing universe.now }
    requires index { IsIndexOf (rule_trees rules.now) dependents.now }
    requires order { IsOrder (rule_trees rules.now) order.now }
    requires scraped { IfSome scraped (λ row. IsSeriesRow universe.now (rule_trees rules.now) row.now) }
    requires marks { length dirty.old ≡ length rules.now }
    requires rises { Rises universe.now (rule_trees rules.now) (start universe.now (rule_trees rules.now)) env }
    requires hold { OthersHold universe.now (rule_trees rules.now) env dirty.old }
    ensures { IfOk result (IsLeast universe.now (rule_trees rules.now)) }
{
    loop {
        let added = raise_all(
            alloc, universe, rules, dependents, order, scraped, &mut env, dirty,
        )?;
        if !added {
            return Ok(env);
        }
    }
}

/// A step of each rule in the order. It says whether a class was added.
fn raise_all(
    alloc: Global,
    universe: &Universe,
    rules: &Seq<Rule>,
    dependents: &Dependents,
    order: &Seq<u32>,
    scraped: Option<&Row>,
    env: &mut Env,
    dirty: &mut [bool],
) -> Result<bool, Memory>
    requires listing { IsListing universe.now }
    requires of_rules { IsEnvironmentOf universe.now (rule_trees rules.now) env.old }
    requires index { IsIndexOf (rule_trees rules.now) dependents.now }
    requires order { IsOrder (rule_trees rules.now) order.now }
    requires scraped { IfSome scraped (λ row. IsSeriesRow universe.now (rule_trees rules.now) row.now) }
    requires marks { length dirty.old ≡ length rules.now }
    requires hold { OthersHold universe.now (rule_trees rules.now) env.old dirty.old }
    ensures { IfOk result (Tells universe.now (rule_trees rules.now) order.now (length order.now) env.old env.new dirty.new) }
{
    let mut added = false;
    for place in 0..order.len() {
        let k = *order.get(place) as usize;
        let one = step(alloc, universe, rules, dependents, scraped, k, env, dirty)?;
        added = either(added, one);
    }
    Ok(added)
}

/// A step of a rule, where it is dirty: its row is joined to that of its name, and where this adds a class, each rule that selects the name becomes dirty, and no other. It
/// says whether a class was added.
fn step(
    alloc: Global,
    universe: &Universe,
    rules: &Seq<Rule>,
    dependents: &Dependents,
    scraped: Option<&Row>,
    k: usize,
    env: &mut Env,
    dirty: &mut [bool],
) -> Result<bool, Memory>
    requires listing { IsListing universe.now }
    requires of_rules { IsEnvironmentOf universe.now (rule_trees rules.now) env.old }
    requires rule { k < length rules.now }
    requires index { IsIndexOf (rule_trees rules.now) dependents.now }
    requires scraped { IfSome scraped (λ row. IsSeriesRow universe.now (rule_trees rules.now) row.now) }
    requires marks { length dirty.old ≡ length rules.now }
    requires hold { OthersHold universe.now (rule_trees rules.now) env.old dirty.old }
    ensures { IfOk result (StepTells universe.now (rule_trees rules.now) k env.old env.new dirty.old dirty.new) }
{
    if !dirty[k] {
        return Ok(false);
    }
    dirty[k] = false;
    let added = raise(alloc, universe, rules, scraped, k, env)?;
    if !added {
        return Ok(false);
    }
    dependents.invalidate(rules.get(k).name.as_str(), dirty);
    Ok(true)
}

/// Joins the row of what a rule stores to that of its name. It says whether a class was added.
fn raise(
    alloc: Global,
    universe: &Universe,
    rules: &Seq<Rule>,
    scraped: Option<&Row>,
    k: usize,
    env: &mut Env,
) -> Result<bool, Memory>
    requires listing { IsListing universe.now }
    requires of_rules { IsEnvironmentOf universe.now (rule_trees rules.now) env.old }
    requires scraped { IfSome scraped (λ row. IsSeriesRow universe.now (rule_trees rules.now) row.now) }
    requires rule { k < length rules.now }
    ensures { IfOk result (TellsOf universe.now (rule_trees rules.now) k env.old env.new) }
{
    let rule = rules.get(k);
    if rule.alert {
        return Ok(false);
    }
    let row = recorded_row_with(alloc, universe, env, scraped, rule)?;
    Ok(env.raise(rule.name.as_str(), &row))
}
