//! Tests of lf_flow: the names of an environment and its rows by number, and what an expression reads. Of these calls the program doesn't make `reads` and `Env::name`.

use lf_accept::accept;
use lf_ast::Rule;
use lf_base::{Memory, Seq};
use lf_classes::{ClassError, Row, Universe};
use lf_flow::{Env, reads};
use std::alloc::Global;
use std::test::Fail;

/// Four recorded names, the first of two rules. The rule of the third name reads the first one, a name that isn't recorded, and the second name within a scalar alone; that of the
/// last reads all, since it has a selector without a name.
const RULES: &str =
    "groups:\n- name: g\n  rules:\n  - record: a:a\n    expr: foo\n  - record: b:b\n    expr: foo\n  - record: a:a\n    expr: bar\n  - record: c:c\n    expr: a:a + foo * scalar(b:b)\n  - record: d:d\n    expr: count({job='x'}) + b:b\n";

/// The names of an environment, in their order.
fn names_of(alloc: Global, env: &Env) -> Result<String, Memory> {
    let mut names = String::new(alloc);
    for k in 0..env.names() {
        names.push_str(env.name(k).as_str())?;
        names.push(' ')?;
    }
    Ok(names)
}

/// What each rule reads.
fn read_by(alloc: Global, env: &Env, rules: &[Rule]) -> Result<String, Memory> {
    let mut read = String::new(alloc);
    for rule in rules {
        push_read(alloc, env, rule, &mut read)?;
    }
    Ok(read)
}

/// Writes the numbers of the names that a rule reads.
fn push_read(alloc: Global, env: &Env, rule: &Rule, read: &mut String) -> Result<(), Memory> {
    let numbers = reads(alloc, env, &rule.expr)?;
    for number in numbers.as_slice() {
        write!(read, "{number} ")?;
    }
    read.push_str("| ")?;
    Ok(())
}

/// Gives the name with a number a row, if there is one.
fn put(env: &mut Env, k: u32, row: Row) {
    if k < env.names() {
        env.put(k, row);
    }
}

/// Gives each name the full row.
fn fill(alloc: Global, universe: &Universe, env: &mut Env) -> Result<(), Memory> {
    for k in 0..env.names() {
        let row = Row::full(alloc, universe)?;
        put(env, k, row);
    }
    Ok(())
}

/// Whether a name has a row that isn't empty.
fn has_samples(env: &Env, name: &str) -> bool {
    match env.row(name) {
        Some(row) => !row.is_empty(),
        None => false,
    }
}

/// The environment of rules in which no name has a sample.
fn bottom(alloc: Global, rules: &Seq<Rule>) -> Result<Env, ClassError> {
    let universe = Universe::build(alloc, rules)?;
    let env = Env::bottom(alloc, &universe, rules)?;
    Ok(env)
}

/// The environment of rules in which each name has the full row.
fn full(alloc: Global, rules: &Seq<Rule>) -> Result<Env, ClassError> {
    let universe = Universe::build(alloc, rules)?;
    let mut env = Env::bottom(alloc, &universe, rules)?;
    fill(alloc, &universe, &mut env)?;
    Ok(env)
}

#[test]
fn an_environment_has_its_names_in_order(rt: HostRuntime) -> Result<(), Fail> {
    let rules = accept(rt.alloc(), RULES.as_bytes(), 0)?;
    let env = bottom(rt.alloc(), &rules)?;
    let names = names_of(rt.alloc(), &env)?;
    assert_eq!(rt; names.as_str(), "a:a b:b c:c d:d ");
    Ok(())
}

#[test]
fn an_expression_reads_what_its_selectors_say(rt: HostRuntime) -> Result<(), Fail> {
    let rules = accept(rt.alloc(), RULES.as_bytes(), 0)?;
    let env = bottom(rt.alloc(), &rules)?;
    let read = read_by(rt.alloc(), &env, rules.as_slice())?;
    assert_eq!(rt; read.as_str(), "| | | 0 | 0 1 2 3 | ");
    Ok(())
}

#[test]
fn a_name_is_given_a_row(rt: HostRuntime) -> Result<(), Fail> {
    let rules = accept(rt.alloc(), RULES.as_bytes(), 0)?;
    let env = full(rt.alloc(), &rules)?;
    assert!(rt; has_samples(&env, "a:a") && has_samples(&env, "d:d"));
    Ok(())
}
