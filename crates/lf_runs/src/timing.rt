//! How long runs take.

use crate::outcome::run_over;
use crate::world::AskedWorld;
use anyhow::Result;
use lf_ast::Rule;
use lf_base::Seq;
use std::rt::CpuClock;

/// Prints how many samples are stored after the steps of a world, and the processor time in seconds that this takes to find.
pub fn print_time(rt: &HostRuntime, rules: &Seq<Rule>, world: &AskedWorld) -> Result<()> {
    let begun = rt.thread_cpu_time()?;
    let run = run_over(rt.alloc(), rules, world)?;
    let taken = rt.thread_cpu_time()?.saturating_sub(begun);
    let stored = match &run {
        Some(stored) => stored.len(),
        None => 0,
    };
    let series = world.series.len();
    let steps = world.steps.len();
    let seconds = taken.as_secs();
    let micros = taken.subsec_micros();
    println!(rt; "{series} series, {steps} steps, {stored} stored, {seconds}.{micros:06} s")?;
    Ok(())
}
