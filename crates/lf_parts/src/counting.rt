//! How many parts an expression has.
ghost use Rattle.std.specs.Prelude.{◌≡◌, length};
ghost use Rattle.lf_ast.specs.Tree.{parts_of, tree};

use lf_ast::Expr;

/// How many parts an expression has, without those in them.
pub(crate) fn part_count(expr: &Expr) -> usize
    ensures { result ≡ length (parts_of (tree expr.now)) }
{
    match expr {
        Expr::Number { .. } | Expr::Str { .. } | Expr::Selector { .. } => 0,
        Expr::Subquery { .. } | Expr::Paren { .. } | Expr::Unary { .. } => 1,
        Expr::Binary { .. } => 2,
        Expr::Call { args, .. } => args.len(),
        Expr::Aggregate { args, .. } => args.len(),
    }
}
