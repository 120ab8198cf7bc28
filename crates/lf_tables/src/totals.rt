//! How much the rules read together, by one index and one graph of names.
ghost use Rattle.std.specs.Prelude.{◌<◌, ◌^◌, length};
ghost use Rattle.lf_deps.specs.views.Index.{IsIndex};
ghost use Rattle.lf_deps.specs.views.Names.{IsNameGraphOf};

use lf_ast::Rule;
use lf_base::{Memory, Seq};
use lf_classes::TextSet;
use lf_deps::{NameGraph, Sources, cyclic_of, reach_of};
use std::alloc::Global;

/// How much rules read together.
#[derive(Clone, Copy)]
pub struct ReadTotals {
    /// The sum, over the rules, of how many rules each reaches.
    pub reached: usize,
    /// How many of the names are read in their own making.
    pub cyclic: usize,
}

/// How much rules read together, of which these names are recorded.
pub fn totals_of(alloc: Global, rules: &Seq<Rule>, names: &TextSet) -> Result<ReadTotals, Memory>
    requires count { length rules.now < 2 ^ 32 }
{
    let sources = Sources::of(alloc, rules)?;
    let graph = NameGraph::of(alloc, &sources)?;
    Ok(ReadTotals {
        reached: reached_together(alloc, &sources, &graph)?,
        cyclic: cyclic_together(&sources, &graph, names),
    })
}

/// Writes how much rules read together, as a line.
pub fn write_totals(
    alloc: Global,
    out: &mut String,
    rules: &Seq<Rule>,
    names: &TextSet,
) -> Result<(), Memory>
    requires count { length rules.now < 2 ^ 32 }
{
    let ReadTotals { reached, cyclic } = totals_of(alloc, rules, names)?;
    writeln!(out, "together {reached} reached, {cyclic} cyclic")?;
    Ok(())
}

/// The sum of how many rules each rule of an index reaches.
fn reached_together(alloc: Global, sources: &Sources, graph: &NameGraph) -> Result<usize, Memory>
    requires index { IsIndex sources.now }
    requires graph { IsNameGraphOf sources.now graph.now }
    requires count { length sources.now.selected < 2 ^ 32 }
{
    let mut sum = 0usize;
    for rule in 0..sources.rule_count() as u32 {
        sum = sum.saturating_add(reach_of(alloc, sources, graph, rule)?.len());
    }
    Ok(sum)
}

/// How many of the names the rules of an index read in their own making.
fn cyclic_together(sources: &Sources, graph: &NameGraph, names: &TextSet) -> usize
    requires index { IsIndex sources.now }
    requires graph { IsNameGraphOf sources.now graph.now }
{
    let mut count = 0usize;
    for place in 0..names.len() {
        if cyclic_of(sources, graph, names.get(place)) {
            count = count.saturating_add(1);
        }
    }
    count
}
