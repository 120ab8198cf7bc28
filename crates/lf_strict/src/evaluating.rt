//! What an expression strictly gives.
ghost use Rattle.std.specs.Prelude.{◌≡◌, IfOk, List, Option, map};
ghost use Rattle.std.specs.Option.{option_map};
ghost use Rattle.lf_ast.specs.Functions.{called_by, signature_of};
ghost use Rattle.lf_ast.specs.Labels.{Labels};
ghost use Rattle.lf_ast.specs.Tree.{parts_of, tree};
ghost use Rattle.lf_ast.specs.views.Walks.{chosen};
ghost use Rattle.lf_semantics.specs.Parts.{type_by_form};
ghost use Rattle.lf_witness.specs.StrictRuns.{IsStrictAnswer};
ghost use Rattle.lf_strict.specs.views.Evaluated.{evaluated};
ghost use Rattle.lf_nodes.specs.views.Needed.{parts_needed};

use crate::evaluated::{Evaluated, binary, call, operand, selector, signed};
use crate::sets::bare;
use crate::store::Store;
use lf_ast::walk::{Fold, Parts, fold_up};
use lf_ast::{Expr, ExprType, Function, Grouping, LabelSet};
use lf_base::{Memory, Seq};
use lf_nodes::{both, parts_needed, the_only};
use std::alloc::Global;

/// What an expression strictly gives over stored samples, of which equal ones count once: the samples in ascending order of their pairs of a label and its text, or None.
/// It is None where two samples of a result would be one, where a match isn't unique on a one side, where the rules leave open what is given, and for a string. A range
/// vector gives the samples of its selector or subquery, and a scalar the one sample without labels.
pub fn strict(
    alloc: Global,
    stored: &Seq<LabelSet>,
    expr: &Expr,
) -> Result<Option<Seq<LabelSet>>, Memory>
    ensures answer { IfOk result (IsStrictAnswer stored.now (tree expr.now)) }
    // No other answer is one.
    ensures only { (answer : Option (List Labels)) → IsStrictAnswer stored.now (tree expr.now) answer → IfOk result (λ told. told ≡ answer) }
{
    let store = Store::of(alloc, None, stored)?;
    evaluate(alloc, &store, expr)
}

/// What an expression strictly gives over a store.
pub fn evaluate(alloc: Global, store: &Store, expr: &Expr) -> Result<Option<Seq<LabelSet>>, Memory>
    ensures { IfOk result (IsStrictAnswer store.now (tree expr.now)) }
{
    let evaluated = fold_up(alloc, &Evaluation { store }, expr)?;
    match evaluated.answer {
        Some(samples) => Ok(Some(samples.into_list(alloc)?)),
        None => Ok(None),
    }
}

/// What an expression strictly gives over a store, and the type that its form tells.
pub fn evaluated<'a>(
    alloc: Global,
    store: &'a Store<'a>,
    expr: &Expr,
) -> Result<Evaluated<'a>, Memory>
    ensures { IfOk result (λ made. made ≡ evaluated store.now (tree expr.now)) }
{
    fold_up(alloc, &Evaluation { store }, expr)
}

/// Evaluates an expression from what its parts give, over a store. Of the arguments of a call only the operand is looked at.
#[derive(Drop)]
struct Evaluation<'a> {
    store: &'a Store<'a>,
}

impl<'a> Fold for Evaluation<'a> {
    type Value = Evaluated<'a>;

    type Note = Option<Function>;

    ghost use Rattle.std.specs.Prelude.{◌≡◌};
    ghost use Rattle.std.specs.Option.{option_map};
    ghost use Rattle.lf_ast.specs.Functions.{called_by, signature_of};
    ghost use Rattle.lf_strict.specs.views.Evaluated.{evaluated};
    ghost use Rattle.lf_nodes.specs.views.Needed.{parts_needed};

    ghost value = { λ evaluation e. evaluated evaluation.store.now e };

    ghost needed = { λ evaluation e. parts_needed e };

    ghost notes = { λ e function. option_map signature_of function ≡ called_by e };

    fn enter(&self, expr: &Expr) -> (Parts, Option<Function>) {
        let function = Function::called_by(expr);
        (parts_needed(expr, &function), function)
    }

    fn step(
        &self,
        alloc: Global,
        expr: &Expr,
        function: Option<Function>,
        values: Vec<Evaluated<'a>>,
    ) -> Result<Evaluated<'a>, Memory>
        requires function { option_map signature_of function ≡ called_by (tree expr.now) }
        requires values { values.items ≡ map (evaluated self.now.store.now) (chosen (parts_needed (tree expr.now)) (parts_of (tree expr.now))) }
        ensures { IfOk result (λ made. made ≡ evaluated self.now.store.now (tree expr.now)) }
    {
        from_parts(alloc, self.store, expr, function, values)
    }
}

/// What an expression gives, from what it calls and what its parts give.
fn from_parts<'a>(
    alloc: Global,
    store: &'a Store<'a>,
    expr: &Expr,
    function: Option<Function>,
    parts: Vec<Evaluated<'a>>,
) -> Result<Evaluated<'a>, Memory>
    requires function { option_map signature_of function ≡ called_by (tree expr.now) }
    requires parts { parts.items ≡ map (evaluated store.now) (chosen (parts_needed (tree expr.now)) (parts_of (tree expr.now))) }
    ensures answer { IfOk result (λ made. IsStrictAnswer store.now (tree expr.now) made.answer) }
    ensures form { IfOk result (λ made. made.form ≡ type_by_form (tree expr.now)) }
{
    match expr {
        Expr::Number { .. } => Ok(Evaluated {
            answer: Some(bare(alloc)),
            form: ExprType::Scalar,
        }),
        Expr::Str { .. } => Ok(Evaluated {
            answer: None,
            form: ExprType::Str,
        }),
        Expr::Selector {
            name,
            matchers,
            sight,
            ..
        } => selector(alloc, store, name, matchers.as_slice(), &sight.range),
        Expr::Subquery { .. } => Ok(Evaluated {
            answer: the_only(parts).answer,
            form: ExprType::Range,
        }),
        Expr::Paren { .. } => Ok(the_only(parts)),
        Expr::Unary { minus, .. } => signed(alloc, *minus, the_only(parts)),
        Expr::Binary { op, modifier, .. } => {
            let (left, right) = both(parts);
            binary(alloc, *op, modifier, left, right)
        }
        Expr::Call { args, .. } => call(
            alloc,
            function,
            &Grouping::None,
            args.as_slice(),
            operand(parts),
        ),
        Expr::Aggregate { grouping, args, .. } => {
            call(alloc, function, grouping, args.as_slice(), operand(parts))
        }
    }
}
