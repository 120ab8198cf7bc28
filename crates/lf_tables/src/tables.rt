//! All tables of rules.
ghost use Rattle.std.specs.Prelude.{◌≡◌, ◌<◌, ◌^◌, length};
ghost use Rattle.lf_ast.specs.Rules.{rule_trees};
ghost use Rattle.lf_semantics.specs.Listing.{universe_of};

use crate::classes::write_labels;
use crate::environment::write_environment;
use crate::reads::{write_cycles, write_order, write_pairs, write_reaches};
use crate::totals::write_totals;
use lf_ast::Rule;
use lf_base::{Memory, Seq};
use lf_classes::{ClassError, TextSet, Universe, recorded_names};
use lf_fix::solve;
use std::alloc::Global;

/// The tables of rules, one after the other.
pub fn tables_of(alloc: Global, rules: &Seq<Rule>) -> Result<String, ClassError>
    requires count { length rules.now < 2 ^ 32 }
{
    let universe = Universe::build(alloc, rules)?;
    let names = recorded_names(alloc, rules.as_slice())?;
    let mut out = String::new(alloc);
    write_labels(&mut out, &universe)?;
    write_least(alloc, &mut out, &universe, rules, &names)?;
    write_reads(alloc, &mut out, rules, &names)?;
    Ok(out)
}

/// Writes the least environment over the universe of the rules.
fn write_least(
    alloc: Global,
    out: &mut String,
    universe: &Universe,
    rules: &Seq<Rule>,
    names: &TextSet,
) -> Result<(), Memory>
    requires { universe.now ≡ universe_of (rule_trees rules.now) }
{
    let env = solve(alloc, universe, rules)?;
    write_environment(out, universe, &env, names)?;
    Ok(())
}

/// Writes the order of the rules, and what they read.
fn write_reads(
    alloc: Global,
    out: &mut String,
    rules: &Seq<Rule>,
    names: &TextSet,
) -> Result<(), Memory>
    requires count { length rules.now < 2 ^ 32 }
{
    write_order(alloc, out, rules)?;
    write_reaches(alloc, out, rules)?;
    write_pairs(alloc, out, rules)?;
    write_cycles(alloc, out, rules, names)?;
    write_totals(alloc, out, rules, names)
}
