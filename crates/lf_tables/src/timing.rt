//! How long it takes to tell what rules read.
ghost use Rattle.std.specs.Prelude.{◌<◌, ◌^◌, length};

use crate::totals::{ReadTotals, totals_of};
use anyhow::{Result, bail};
use lf_ast::Rule;
use lf_base::{Memory, Seq};
use lf_classes::{TextSet, recorded_names};
use lf_deps::order;
use std::alloc::Global;
use std::rt::CpuClock;

/// Prints how much rules read together, and the processor time in seconds that it takes to find this and the order of the rules.
pub fn print_time(rt: &HostRuntime, rules: &Seq<Rule>) -> Result<()>
    requires count { length rules.now < 2 ^ 32 }
{
    let Ok(names) = recorded_names(rt.alloc(), rules.as_slice()) else {
        bail!("out of memory")
    };
    let begun = rt.thread_cpu_time()?;
    let Ok(ReadTotals { reached, cyclic }) = order_and_totals(rt.alloc(), rules, &names) else {
        bail!("out of memory")
    };
    let taken = rt.thread_cpu_time()?.saturating_sub(begun);
    let count = rules.len();
    let seconds = taken.as_secs();
    let micros = taken.subsec_micros();
    println!(rt; "{count} rules, {reached} reached, {cyclic} cyclic, {seconds}.{micros:06} s")?;
    Ok(())
}

/// Orders rules, and tells how much they read together.
fn order_and_totals(alloc: Global, rules: &Seq<Rule>, names: &TextSet) -> Result<ReadTotals, Memory>
    requires count { length rules.now < 2 ^ 32 }
{
    let _order = order(alloc, rules)?;
    totals_of(alloc, rules, names)
}
