//! The rows that rounds find are those that one thread finds.
ghost use Rattle.lf_semantics.specs.ClassRows.{HasShape};
ghost use Rattle.lf_semantics.specs.Environments.{IsEnvironment};

use crate::rounds::{OF_ONE_NAME, READ_ONE_ANOTHER, universe_of};
use lf_accept::accept;
use lf_ast::Rule;
use lf_base::{OpenGate, Seq};
use lf_classes::{ClassError, Row, Universe};
use lf_fix::solve;
use lf_flow::Env;
use lf_rounds::solve_shared;
use std::alloc::Global;
use std::test::Fail;
use std::thread::Threads;

/// Whether two environments have the same rows, name by name.
fn are_equal(universe: &Universe, one: &Env, other: &Env) -> bool
    requires one { IsEnvironment universe.now one.now }
    requires other { IsEnvironment universe.now other.now }
{
    if one.names() != other.names() {
        return false;
    }
    for k in 0..one.names() {
        if !have_same_row(universe, one, other, one.name(k).as_str()) {
            return false;
        }
    }
    true
}

/// Whether both have a row of a name, and the same one.
fn have_same_row(universe: &Universe, one: &Env, other: &Env, name: &str) -> bool
    requires one { IsEnvironment universe.now one.now }
    requires other { IsEnvironment universe.now other.now }
{
    let Some(row) = one.row(name) else {
        return false;
    };
    let Some(same) = other.row(name) else {
        return false;
    };
    are_rows_equal(universe, row, same)
}

/// Whether two rows have the same classes of each label.
fn are_rows_equal(universe: &Universe, row: &Row, other: &Row) -> bool
    requires row { HasShape universe.now row.now }
    requires other { HasShape universe.now other.now }
{
    has_all_of(universe, row, other) && has_all_of(universe, other, row)
}

/// Whether a row has each class that another one has.
fn has_all_of(universe: &Universe, row: &Row, other: &Row) -> bool
    requires row { HasShape universe.now row.now }
    requires other { HasShape universe.now other.now }
{
    row.covers(other)
}

/// How many rows the least environment of rules has, and whether so many workers find the one that `solve` finds.
fn found_alike<R: Threads + Sync>(
    rt: &R,
    alloc: Global,
    rules: &Seq<Rule>,
) -> Result<(u32, bool), ClassError> {
    let universe = universe_of(alloc, rules)?;
    let alone = solve(alloc, &universe, rules)?;
    let shared = solve_shared(rt, alloc, &universe, rules, 3, &OpenGate)?;
    Ok((alone.names(), are_equal(&universe, &alone, &shared)))
}

#[test]
fn three_workers_find_what_one_thread_finds(rt: HostRuntime) -> Result<(), Fail> {
    let of_one_name = accept(rt.alloc(), OF_ONE_NAME.as_bytes(), 0)?;
    assert_eq!(rt; found_alike(&rt, rt.alloc(), &of_one_name)?, (1, true));
    let read_one_another = accept(rt.alloc(), READ_ONE_ANOTHER.as_bytes(), 0)?;
    assert_eq!(rt; found_alike(&rt, rt.alloc(), &read_one_another)?, (2, true));
    Ok(())
}
