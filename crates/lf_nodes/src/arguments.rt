//! Which arguments of a call have samples, and which of them the samples of the call come from.
ghost use Rattle.std.specs.Prelude.{◌≡◌, drop};
ghost use Rattle.std.specs.List.{position_or_len};
ghost use Rattle.std.specs.Option.{option_map};
ghost use Rattle.lf_ast.specs.Functions.{called_by, function_named, signature_of};
ghost use Rattle.lf_ast.specs.Tree.{tree};
ghost use Rattle.lf_ast.specs.Types.{is_scalar};
ghost use Rattle.lf_semantics.specs.Parts.{given_by, is_evaluated, takes_samples};
ghost use Rattle.lf_nodes.specs.views.Needed.{operand_part, parts_needed};

use lf_ast::walk::Parts;
use lf_ast::{Expr, ExprType, Function, is_scalar};

/// The parts of an expression that its samples are made of, by the function that it calls, if any: of arguments only the operand.
pub fn parts_needed(expr: &Expr, function: &Option<Function>) -> Parts
    requires { option_map signature_of function.now ≡ called_by (tree expr.now) }
    ensures { result ≡ parts_needed (tree expr.now) }
{
    match expr {
        Expr::Call { .. } | Expr::Aggregate { .. } => operand_part(function),
        Expr::Number { .. }
        | Expr::Str { .. }
        | Expr::Selector { .. }
        | Expr::Subquery { .. }
        | Expr::Paren { .. }
        | Expr::Unary { .. }
        | Expr::Binary { .. } => Parts::All,
    }
}

/// The operand of a function among its arguments, and nothing where there is no function.
fn operand_part(function: &Option<Function>) -> Parts
    ensures { result ≡ operand_part (option_map signature_of function.now) }
{
    match function {
        Some(function) => Parts::Only {
            place: operand_place(function.takes),
        },
        None => Parts::Nothing,
    }
}

/// Which argument, counted from 0, is the operand of a function that always takes these: the first that has samples, or else the first further one.
pub fn operand_place(takes: &[ExprType]) -> usize
    ensures { result ≡ position_or_len takes_samples takes.now }
{
    for (place, of) in takes.iter().enumerate() {
        if takes_samples(*of) {
            return place;
        }
    }
    takes.len()
}

/// Whether an expression of this type has samples.
pub fn takes_samples(of: ExprType) -> bool
    ensures { result ≡ takes_samples of }
{
    match of {
        ExprType::Vector | ExprType::Range => true,
        ExprType::Scalar | ExprType::Str => false,
    }
}

/// Whether a rule whose expression is of this type is evaluated.
pub fn is_rule_type(of: ExprType) -> bool
    ensures { result ≡ is_evaluated of }
{
    match of {
        ExprType::Scalar | ExprType::Vector => true,
        ExprType::Str | ExprType::Range => false,
    }
}

/// Whether what is called by this name gives a scalar. A name that no function has counts as that of a vector.
pub fn gives_scalar(name: &str) -> bool
    ensures { result ≡ is_scalar (given_by (function_named name.now)) }
{
    match Function::named(name) {
        Some(function) => is_scalar(function.gives),
        None => false,
    }
}

/// The arguments of a `label_join` that name its sources: all behind the third.
pub fn joined_sources(args: &[Expr]) -> &[Expr]
    ensures { result.now ≡ drop 3 args.now }
{
    &args[args.len().min(3)..]
}
