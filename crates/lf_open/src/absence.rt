//! Which `absent` is open.
ghost use Rattle.std.specs.Prelude.{◌↔◌, IsTrue, Some};
ghost use Rattle.lf_ast.specs.Tree.{trees};
ghost use Rattle.lf_semantics.specs.Parts.{sought_in};
ghost use Rattle.lf_witness.specs.Strict.{IsOpenAbsent};

use lf_ast::Expr;
use lf_nodes::{leaves_open, sought_in};

/// Whether an `absent` of these arguments is open.
pub(crate) fn is_open(args: &[Expr]) -> bool
    ensures { IsTrue result ↔ IsOpenAbsent (sought_in (trees args.now)) }
{
    match sought_in(args) {
        Some(sought) => leaves_open(&sought),
        None => false,
    }
}
