//! Calls and aggregations with their arguments.
ghost use Rattle.std.specs.Prelude.{◌≡◌};
ghost use Rattle.lf_ast.specs.Tree as trees_of;
ghost use Rattle.lf_ast.specs.Tree.{tree, trees};

use lf_ast::{Agg, Expr, Grouping};
use lf_base::{Seq, Span, Text};

/// A call of a function. The span is the word's.
pub fn call(name: Text, args: Seq<Expr>, span: Span) -> Expr
    ensures { tree result ≡ trees_of.Call name (trees args) span }
{
    Expr::Call { name, args, span }
}

/// An aggregation. The span is the word's.
pub fn aggregation(op: Agg, grouping: Grouping, args: Seq<Expr>, span: Span) -> Expr
    ensures { tree result ≡ trees_of.Aggregate op grouping (trees args) span }
{
    Expr::Aggregate {
        op,
        grouping,
        args,
        span,
    }
}
