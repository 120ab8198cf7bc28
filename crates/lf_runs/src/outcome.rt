//! What a run gives over a world, as text.
ghost use Rattle.std.specs.Prelude.{◌<◌, ℕ, length, OnOk};
ghost use Rattle.std.specs.List.{Contains};

use crate::run::no_memory;
use crate::series::write_series;
use crate::world::AskedWorld;
use anyhow::{Result, bail};
use lf_ast::{LabelSet, Rule};
use lf_base::Seq;
use lf_strict::{strict, strict_run};
use std::alloc::{AllocError, Global};

/// The samples that are stored after the steps of a world, and then of each rule that it asks for what the rule's expression gives over them. Where there are no stored
/// samples to ask over, nothing is said of the rules.
pub fn outcome_of(alloc: Global, rules: &Seq<Rule>, world: &AskedWorld) -> Result<String> {
    let run = run_over(alloc, rules, world)?;
    let mut out = String::new(alloc);
    write_answer(&mut out, &run)?;
    if let Some(stored) = run {
        for number in world.gives.as_slice() {
            write_given(alloc, &mut out, &stored, rules, *number)?;
        }
    }
    Ok(out)
}

/// The samples that are stored after the steps of a world, which has to name rules.
pub fn run_over(
    alloc: Global,
    rules: &Seq<Rule>,
    world: &AskedWorld,
) -> Result<Option<Seq<LabelSet>>> {
    ask_steps(rules, world.steps.as_slice())?;
    strict_run(alloc, &world.series, rules, &world.steps).map_err(no_memory)
}

/// Asks that each number is that of a rule.
fn ask_steps(rules: &Seq<Rule>, steps: &[u32]) -> Result<()>
    ensures { OnOk result ((number : ℕ) → Contains steps.now number → number < length rules.now) }
{
    for number in steps {
        if *number as usize >= rules.len() {
            bail!("no rule has the number {number}");
        }
    }
    Ok(())
}

/// Writes a rule's number and name, and what its expression gives.
fn write_given(
    alloc: Global,
    out: &mut String,
    stored: &Seq<LabelSet>,
    rules: &Seq<Rule>,
    number: u32,
) -> Result<()> {
    let Some(rule) = rules.as_slice().get(number as usize) else {
        bail!("no rule has the number {number}")
    };
    writeln!(out, "rule {number} {}", rule.name.as_str())?;
    let answer = strict(alloc, stored, &rule.expr).map_err(no_memory)?;
    write_answer(out, &answer)?;
    Ok(())
}

/// Writes a line for each sample, or one that says that there are none, or that there is no answer.
fn write_answer(out: &mut String, answer: &Option<Seq<LabelSet>>) -> Result<(), AllocError> {
    match answer {
        None => out.push_str("  none\n"),
        Some(samples) => write_samples(out, samples.as_slice()),
    }
}

/// Writes a line for each sample, or one that says that there are none.
fn write_samples(out: &mut String, samples: &[LabelSet]) -> Result<(), AllocError> {
    if samples.is_empty() {
        return out.push_str("  no samples\n");
    }
    for sample in samples {
        out.push_str("  ")?;
        write_series(out, sample)?;
        out.push('\n')?;
    }
    Ok(())
}
