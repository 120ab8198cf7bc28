//! How many selectors an expression has.
ghost use Rattle.std.specs.Prelude.{◌≡◌, IfOk};
ghost use Rattle.lf_ast.specs.Tree.{tree};
ghost use Rattle.lf_forks.specs.Selectors.{is_selector, selector_total};

use lf_ast::Expr;
use lf_ast::walk::nodes_of;
use lf_base::Memory;
use std::alloc::Global;

/// How many selectors stand in an expression, those within scalars too.
pub fn all_selectors(alloc: Global, expr: &Expr) -> Result<usize, Memory>
    ensures { IfOk result (λ count. count ≡ selector_total (tree expr.now)) }
{
    let nodes = nodes_of(alloc, expr)?;
    Ok(nodes.iter().filter(|node| is_selector(node)).count())
}

/// Whether an expression is a selector.
fn is_selector(expr: &Expr) -> bool
    ensures { result ≡ is_selector (tree expr.now) }
{
    match expr {
        Expr::Selector { .. } => true,
        _ => false,
    }
}
