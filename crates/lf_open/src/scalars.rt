//! Which expressions are scalars.
ghost use Rattle.std.specs.Prelude.{◌≡◌};
ghost use Rattle.std.specs.List.{list_all};
ghost use Rattle.lf_ast.specs.Tree.{tree};
ghost use Rattle.lf_open.specs.views.Told.{scalar_by};

use crate::told::ExpressionFacts;
use lf_ast::Expr;
use lf_nodes::gives_scalar;

/// Whether an expression is a scalar, by whether its parts are.
pub(crate) fn is_scalar_by(expr: &Expr, parts: &[ExpressionFacts]) -> bool
    ensures { result ≡ scalar_by (tree expr.now) parts.now }
{
    match expr {
        Expr::Number { .. } => true,
        Expr::Str { .. } | Expr::Selector { .. } | Expr::Subquery { .. } => false,
        Expr::Paren { .. } | Expr::Unary { .. } | Expr::Binary { .. } => are_scalars(parts),
        Expr::Call { name, .. } => gives_scalar(name.as_str()),
        Expr::Aggregate { .. } => false,
    }
}

/// Whether these are all scalars.
fn are_scalars(parts: &[ExpressionFacts]) -> bool
    ensures { result ≡ list_all (λ t. t.scalar) parts.now }
{
    parts.iter().all(|part| part.scalar)
}
