//! The rows of all parts of an expression.
ghost use Rattle.std.specs.Prelude.{◌≡◌, map, IfOk, IfSome};
ghost use Rattle.lf_ast.specs.Tree.{tree, nodes};
ghost use Rattle.lf_semantics.specs.Environments.{IsEnvironment};
ghost use Rattle.lf_semantics.specs.Listing.{IsListing};
ghost use Rattle.lf_semantics.specs.RowTable.{row_of, scraped_row};
ghost use Rattle.lf_flow.specs.views.Kept.{made_row, typed_row_of};

use crate::Env;
use crate::rows::Rows;
use crate::typed_row::TypedRow;
use lf_ast::Expr;
use lf_base::Memory;
use lf_classes::{Row, Universe};
use lf_parts::fold_parts;
use std::alloc::Global;

/// The rows of an expression and of all parts in it, in the order of the text, each before those of its own parts. Each is made once, of those of its parts: this takes as
/// long as there are parts, while `flow` at each of them would take that squared.
pub fn part_rows(
    alloc: Global,
    universe: &Universe,
    env: &Env,
    expr: &Expr,
) -> Result<Vec<Row>, Memory>
    requires env { IsEnvironment universe.now env.now }
    ensures { IfOk result (λ rows. rows.items ≡ map (row_of universe.now env.now) (nodes (tree expr.now))) }
{
    part_rows_with(alloc, universe, env, None, expr)
}

/// As `part_rows`, by the row of all scraped series where it is at hand.
pub fn part_rows_with(
    alloc: Global,
    universe: &Universe,
    env: &Env,
    scraped: Option<&Row>,
    expr: &Expr,
) -> Result<Vec<Row>, Memory>
    requires env { IsEnvironment universe.now env.now }
    requires scraped { IfSome scraped (λ row. row.now ≡ scraped_row universe.now env.now) }
    ensures { IfOk result (λ rows. rows.items ≡ map (row_of universe.now env.now) (nodes (tree expr.now))) }
{
    let _labels = universe.labels();
    let parts = typed_parts(alloc, universe, env, scraped, expr)?;
    into_rows(alloc, universe, parts)
}

/// What is told of an expression and of all parts in it, of a universe that is known to be one.
fn typed_parts(
    alloc: Global,
    universe: &Universe,
    env: &Env,
    scraped: Option<&Row>,
    expr: &Expr,
) -> Result<Vec<TypedRow>, Memory>
    requires listing { IsListing universe.now }
    requires env { IsEnvironment universe.now env.now }
    requires scraped { IfSome scraped (λ row. row.now ≡ scraped_row universe.now env.now) }
    ensures { IfOk result (λ parts. parts.items ≡ map (typed_row_of universe.now env.now) (nodes (tree expr.now))) }
{
    let rows = Rows {
        universe,
        env,
        scraped,
    };
    fold_parts(alloc, &rows, expr)
}

/// The rows of these.
fn into_rows(
    alloc: Global,
    universe: &Universe,
    mut parts: Vec<TypedRow>,
) -> Result<Vec<Row>, Memory>
    ensures { IfOk result (λ rows. rows.items ≡ map (λ (typed : TypedRow). made_row universe.now typed.row) parts.items) }
{
    let mut rows = Vec::new(alloc);
    while let Some(part) = parts.pop() {
        rows.push(part.into_row(alloc, universe)?)?;
    }
    rows.reverse();
    Ok(rows)
}
