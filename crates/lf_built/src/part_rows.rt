//! The rows of all parts of an expression.
ghost use Rattle.std.specs.Prelude.{◌≡◌, ◌<◌, ◌^◌, length, map, IfOk, false, slice_index_or};
ghost use Rattle.std.specs.List.{All};
ghost use Rattle.lf_ast.specs.Tree.{tree, nodes};
ghost use Rattle.lf_classes.specs.Limits.{IsWithin};
ghost use Rattle.lf_semantics.specs.ClassRows.{HasShape, Sets};
ghost use Rattle.lf_semantics.specs.Environments.{IsEnvironment, IsRow};
ghost use Rattle.lf_semantics.specs.RowTable.{Environment, row_of};
ghost use Rattle.lf_trials.specs.Forks.{has_passing};
ghost use Rattle.lf_candidates.specs.views.Packed.{no_row, packed};
ghost use Rattle.lf_forks.specs.views.Holding.{test_of};
ghost use Rattle.lf_built.specs.views.PartRows.{part_rows};

use crate::sizes::part_sizes;
use lf_ast::Expr;
use lf_base::Memory;
use lf_candidates::PackedRow;
use lf_classes::{Row, Universe};
use lf_forks::{Forks, Held};
use std::alloc::Global;
use std::marker::Model;

/// For an expression and each part in it its row, how many parts there are in it, with itself, whether it is a scalar, and whether it holds a fork. They go in the order of
/// the text, each before its own parts, so that the parts of one stand right behind it.
#[derive(Drop)]
pub struct PartRows {
    rows: Vec<PackedRow>,
    sizes: Vec<usize>,
    held: Vec<Held>,
}

impl Model for PartRows {
    ghost use Rattle.std.specs.Prelude.{map};
    ghost use Rattle.lf_forks.specs.declared.holding.Held.{Held};
    ghost use Rattle.lf_built.specs.views.PartRows.{PartRows};

    ghost Value = { PartRows };

    ghost view = { λ parts. record { rows = parts.rows.items; sizes = parts.sizes.items; scalars = map (λ (h : Held). h.scalar) parts.held.items; forks = map (λ (h : Held). h.found) parts.held.items } };
}

impl PartRows {
    /// Those of an expression, by its row and those of its parts. The likely classes of `__name__` are those that these rows may well have.
    pub fn of(
        alloc: Global,
        universe: &Universe,
        forks: &Forks,
        expr: &Expr,
        rows: &[Row],
        likely: &[u32],
    ) -> Result<PartRows, Memory>
        requires { (env : Environment) × IsEnvironment universe.now env × (rows.now ≡ map (row_of universe.now env) (nodes (tree expr.now))) }
        ensures { (env : Environment) → IsEnvironment universe.now env → rows.now ≡ map (row_of universe.now env) (nodes (tree expr.now)) → IfOk result (λ parts. parts ≡ part_rows universe.now env (has_passing (test_of forks.now)) (nodes (tree expr.now))) }
    {
        // For what its contract says of the universe.
        let _labels = universe.labels();
        let rows = packed_rows(alloc, universe, rows, likely)?;
        let sizes = part_sizes(alloc, expr)?;
        let held = forks.are_in(alloc, expr)?;
        Ok(PartRows { rows, sizes, held })
    }

    /// How many parts there are, with the expression itself.
    pub fn len(&self) -> usize
        ensures count { result ≡ length self.now.sizes }
        ensures small { result < 2 ^ 63 }
    {
        self.sizes.len()
    }

    /// The row of the part at a place.
    pub fn row(&self, universe: &Universe, place: usize) -> Result<Row, Memory>
        requires universe { IsWithin universe.now }
        requires place { place < length self.now.rows }
        requires row { (row : Sets) × IsRow universe.now row × (slice_index_or self.now.rows place no_row ≡ packed universe.now row) }
        ensures { (row : Sets) → IsRow universe.now row → slice_index_or self.now.rows place no_row ≡ packed universe.now row → IfOk result (λ whole. whole ≡ row) }
    {
        self.packed_row(place).row(universe)
    }

    /// The row of the part at a place, packed.
    pub fn packed_row(&self, place: usize) -> &PackedRow
        requires { place < length self.now.rows }
        ensures { result.now ≡ slice_index_or self.now.rows place no_row }
    {
        &self.rows[place]
    }

    /// How many parts there are in the part at a place.
    pub fn size(&self, place: usize) -> usize
        requires { place < length self.now.sizes }
        ensures { result ≡ slice_index_or self.now.sizes place 0 }
    {
        self.sizes[place]
    }

    /// Whether the part at a place is a scalar.
    pub fn is_scalar(&self, place: usize) -> bool
        requires { place < length self.now.scalars }
        ensures { result ≡ slice_index_or self.now.scalars place false }
    {
        self.held[place].scalar
    }

    /// Whether the part at a place holds a fork.
    pub fn is_fork(&self, place: usize) -> bool
        requires { place < length self.now.forks }
        ensures { result ≡ slice_index_or self.now.forks place false }
    {
        self.held[place].found
    }
}

/// These rows, packed. Of `__name__` the likely classes are tried first.
fn packed_rows(
    alloc: Global,
    universe: &Universe,
    rows: &[Row],
    likely: &[u32],
) -> Result<Vec<PackedRow>, Memory>
    requires universe { IsWithin universe.now }
    requires shapes { All (HasShape universe.now) rows.now }
    ensures { IfOk result (λ kept. kept.items ≡ map (packed universe.now) rows.now) }
{
    let mut kept = Vec::with_capacity(alloc, rows.len())?;
    for row in rows {
        kept.push(PackedRow::of(alloc, universe, row, likely)?)?;
    }
    Ok(kept)
}
