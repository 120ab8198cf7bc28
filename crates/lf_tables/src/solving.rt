//! How long it takes to find the least environment.
ghost use Rattle.std.specs.Prelude.{◌<◌, ◌≤◌, IfOk, IfSome};
ghost use Rattle.lf_ast.specs.Rules.{rule_trees};
ghost use Rattle.lf_semantics.specs.Environments.{CoversRules};

use anyhow::{Result, bail};
use lf_ast::Rule;
use lf_base::{Memory, OpenGate, Seq};
use lf_classes::{ClassError, Universe};
use lf_fix::solve;
use lf_flow::{Env, match_patterns};
use lf_rounds::solve_shared;
use std::alloc::Global;
use std::thread::Threads;
use std::time::{CpuClock, Instant};

/// Prints how many names rules record and how many words a row of theirs has, and the time in seconds that it takes to find the least environment: processor time of all
/// threads, and how long one waits. Without a number of workers it is found by `solve`, and else by `solve_shared`.
pub fn print_solving<T: Threads + Sync>(
    rt: &HostRuntime,
    threads: &T,
    rules: &Seq<Rule>,
    workers: Option<u32>,
) -> Result<()>
    requires workers { IfSome workers (λ n. (0 < n) × (n ≤ 64)) }
{
    let Ok(universe) = prepared(rt.alloc(), rules) else {
        bail!("there is no universe")
    };
    print_time(rt, threads, &universe, rules, workers)
}

/// The same, in this universe. What takes long to let go is let go in functions of their own, since proving that at each of many ends takes long too.
fn print_time<T: Threads + Sync>(
    rt: &HostRuntime,
    threads: &T,
    universe: &Universe,
    rules: &Seq<Rule>,
    workers: Option<u32>,
) -> Result<()>
    requires covers { CoversRules universe.now (rule_trees rules.now) }
    requires workers { IfSome workers (λ n. (0 < n) × (n ≤ 64)) }
{
    let waiting = Instant::now(rt)?;
    let begun = rt.process_cpu_time()?;
    let Ok(names) = names_solved(threads, rt.alloc(), universe, rules, workers) else {
        bail!("out of memory")
    };
    let taken = rt.process_cpu_time()?.saturating_sub(begun);
    let waited = waiting.elapsed(rt)?;
    let words = universe.words();
    let (seconds, micros) = (taken.as_secs(), taken.subsec_micros());
    let (waited, behind) = (waited.as_secs(), waited.subsec_micros());
    println!(rt;
        "{names} names, {words} words, {seconds}.{micros:06} s, {waited}.{behind:06} s waited"
    )?;
    Ok(())
}

/// How many names the least environment of rules has, which is found and let go.
fn names_solved<T: Threads + Sync>(
    threads: &T,
    alloc: Global,
    universe: &Universe,
    rules: &Seq<Rule>,
    workers: Option<u32>,
) -> Result<u32, Memory>
    requires covers { CoversRules universe.now (rule_trees rules.now) }
    requires workers { IfSome workers (λ n. (0 < n) × (n ≤ 64)) }
{
    let env = environment(threads, alloc, universe, rules, workers)?;
    Ok(env.names())
}

/// The universe of rules, with the classes of their patterns.
fn prepared(alloc: Global, rules: &Seq<Rule>) -> Result<Universe, ClassError>
    ensures { IfOk result (λ universe. CoversRules universe (rule_trees rules.now)) }
{
    let mut universe = Universe::build(alloc, rules)?;
    match_patterns(alloc, &mut universe, rules)?;
    Ok(universe)
}

/// The least environment of rules.
fn environment<T: Threads + Sync>(
    threads: &T,
    alloc: Global,
    universe: &Universe,
    rules: &Seq<Rule>,
    workers: Option<u32>,
) -> Result<Env, Memory>
    requires covers { CoversRules universe.now (rule_trees rules.now) }
    requires workers { IfSome workers (λ n. (0 < n) × (n ≤ 64)) }
{
    match workers {
        Some(workers) => solve_shared(threads, alloc, universe, rules, workers, &OpenGate),
        None => solve(alloc, universe, rules),
    }
}
