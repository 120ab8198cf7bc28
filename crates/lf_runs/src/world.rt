//! Files of worlds.

use crate::run::no_memory;
use crate::series::read_series;
use anyhow::{Result, anyhow};
use lf_ast::LabelSet;
use lf_base::Seq;
use std::alloc::Global;

/// Scraped series, the steps of a run over them, and what is asked behind it.
#[derive(Drop)]
pub struct AskedWorld {
    pub series: Seq<LabelSet>,
    /// The numbers of the rules of the steps.
    pub steps: Seq<u32>,
    /// The numbers of the rules whose expressions are evaluated behind the steps.
    pub gives: Seq<u32>,
}

/// The worlds of a file.
pub fn read_worlds(alloc: Global, text: &str) -> Result<Vec<AskedWorld>> {
    let mut worlds = Vec::new(alloc);
    for lines in text.split("\n\n") {
        worlds.push(read_world(alloc, lines)?)?;
    }
    Ok(worlds)
}

/// A world by its lines.
fn read_world(alloc: Global, lines: &str) -> Result<AskedWorld> {
    let mut world = AskedWorld {
        series: Seq::new(alloc),
        steps: Seq::new(alloc),
        gives: Seq::new(alloc),
    };
    for line in lines.lines() {
        add_line(alloc, &mut world, line)?;
    }
    Ok(world)
}

/// Adds what a line says.
fn add_line(alloc: Global, world: &mut AskedWorld, line: &str) -> Result<()> {
    if let Some(numbers) = line.strip_prefix("steps ") {
        add_numbers(&mut world.steps, numbers)
    } else if let Some(numbers) = line.strip_prefix("gives ") {
        add_numbers(&mut world.gives, numbers)
    } else {
        let series = read_series(alloc, line)?;
        world.series.push(series).map_err(no_memory)
    }
}

/// Adds numbers with blanks between them.
fn add_numbers(all: &mut Seq<u32>, numbers: &str) -> Result<()> {
    for word in numbers.split_whitespace() {
        let number = word
            .parse::<u32>()
            .map_err(|_| anyhow!("this is no number: {word}"))?;
        all.push(number).map_err(no_memory)?;
    }
    Ok(())
}
