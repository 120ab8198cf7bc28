//! How many parts there are in expressions.
ghost use Rattle.std.specs.Prelude.{◌≡◌, ◌+◌, map, sum, IfOk};
ghost use Rattle.lf_ast.specs.Tree.{parts_of, tree, nodes};
ghost use Rattle.lf_built.specs.views.Places.{size};

use lf_ast::Expr;
use lf_ast::walk::{Fold, Parts};
use lf_base::Memory;
use lf_base::counts::sum;
use lf_parts::fold_parts;
use std::alloc::Global;

/// How many parts there are in an expression, with itself, and in each part in it, each before those of its own parts.
pub fn part_sizes(alloc: Global, expr: &Expr) -> Result<Vec<usize>, Memory>
    ensures { IfOk result (λ sizes. sizes.items ≡ map size (nodes (tree expr.now))) }
{
    fold_parts(alloc, &Sizes, expr)
}

/// Counts the parts in an expression by those in its parts.
#[derive(Drop)]
struct Sizes;

impl Fold for Sizes {
    type Value = usize;

    type Note = ();

    ghost use Rattle.lf_ast.specs.declared.walk.choosing.Parts.TheVariants.{All};
    ghost use Rattle.lf_built.specs.views.Places.{size};

    ghost value = { λ s e. size e };

    ghost needed = { λ s e. All };

    ghost notes = { λ e note. Unit {0} };

    fn enter(&self, _expr: &Expr) -> (Parts, ()) {
        (Parts::All, ())
    }

    fn step(
        &self,
        _alloc: Global,
        expr: &Expr,
        _note: (),
        values: Vec<usize>,
    ) -> Result<usize, Memory>
        requires { values.items ≡ map size (parts_of (tree expr.now)) }
        ensures { IfOk result (λ made. made ≡ size (tree expr.now)) }
    {
        one_and(values.as_slice())
    }
}

/// One more than these together.
fn one_and(sizes: &[usize]) -> Result<usize, Memory>
    ensures { IfOk result (λ count. count ≡ sum sizes.now + 1) }
{
    let mut count: usize = 1;
    for size in sizes {
        count = sum(count, *size)?;
    }
    Ok(count)
}
