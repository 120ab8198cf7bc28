//! The type of an expression.
ghost use Rattle.std.specs.Prelude.{◌≡◌, ℕ, map, IfOk};
ghost use Rattle.lf_ast.specs.Tree.{parts_of, tree, trees};
ghost use Rattle.lf_ast.specs.Types.{HasType, is_vector, takes_side};
ghost use Rattle.lf_base.specs.Answers.{Answers, Breach, Found, Only, Refused, RefusedIn};
ghost use Rattle.lf_ast.specs.Breaches.{Tells};
ghost use Rattle.lf_ast.specs.Inside.{Inside};
ghost use Rattle.lf_base.specs.Faults.{first};
ghost use Rattle.lf_ast.specs.reading.Judging.{call_judged, call_of, judged, range_fault, side_fault, unless};

use crate::calls::{Called, argument_fault, called, counted, given, own_fault};
use crate::modifiers::modifier_fault;
use crate::operands::{
    Judged, Operands, joined_at, operands_of, range_fault, selected, side_fault, unless,
};
use crate::parts::span_of;
use crate::walk::{Fold, Parts, fold_up};
use crate::{Expr, ExprType, Function, Op, Sight};
use lf_base::{Fault, Memory, Refusal, Span};
use std::alloc::Global;

/// The type of an expression.
///
/// The first breach is refused, by its start and, at one start, in this order: `BadDuration` at a range that has no length, `WrongType` at an operand or argument
/// of a type that isn't taken there, `UnknownName` and `WrongCount` at the word of a call or an aggregation, `BadModifier` at an operator, `BadLabel` at an
/// argument that is to name a label.
pub fn type_of(alloc: Global, expr: &Expr) -> Result<ExprType, Refusal>
    // What is answered is the type.
    ensures found { Found (λ t. t) (HasType (tree expr.now)) result }
    // It is answered, unless memory runs out; so no expression has two types.
    ensures only { Only (λ t. t) (HasType (tree expr.now)) result }
    // What is refused is the breach that is told.
    ensures refused { Refused (Tells (tree expr.now)) result }
    // It is refused, unless memory runs out; so no expression tells two breaches, nor has one that does a type.
    ensures breach { Breach (λ t. t) (Tells (tree expr.now)) result }
    // In a source that each span of the expression lies in lies what is refused, too.
    ensures refused_inside { (n : ℕ) → Inside n (tree expr.now) → RefusedIn n result }
{
    read_type(alloc, expr)
}

/// The same, by one pass over the expression.
fn read_type(alloc: Global, expr: &Expr) -> Result<ExprType, Refusal>
    ensures { Answers result (judged (tree expr.now)) }
{
    Ok(fold_up(alloc, &Judging, expr)??)
}

/// What is judged of an expression, from what was judged of its parts.
struct Judging;

impl Fold for Judging {
    type Value = Judged;

    type Note = ();

    ghost use Rattle.lf_ast.specs.reading.Judging.{judged};
    ghost use Rattle.lf_ast.specs.declared.walk.choosing.Parts.TheVariants.{All};

    ghost value = { λ judging e. judged e };

    ghost needed = { λ judging e. All };

    ghost notes = { λ e note. Unit {0} };

    fn enter(&self, _expr: &Expr) -> (Parts, ()) {
        (Parts::All, ())
    }

    fn step(
        &self,
        alloc: Global,
        expr: &Expr,
        _note: (),
        values: Vec<Judged>,
    ) -> Result<Judged, Memory>
        requires { values.items ≡ map judged (parts_of (tree expr.now)) }
        ensures { IfOk result (λ found. found ≡ judged (tree expr.now)) }
    {
        judge(alloc, expr, values.as_slice())
    }
}

/// The type of an expression, or the breach that is told, from those of its parts.
fn judge(alloc: Global, expr: &Expr, parts: &[Judged]) -> Result<Judged, Memory>
    requires { parts.now ≡ map judged (parts_of (tree expr.now)) }
    ensures { IfOk result (λ found. found ≡ judged (tree expr.now)) }
{
    match expr {
        Expr::Number { .. } => Ok(Ok(ExprType::Scalar)),
        Expr::Str { .. } => Ok(Ok(ExprType::Str)),
        Expr::Selector { sight, .. } => Ok(unless(range_fault(sight), Ok(selected(&sight.range)))),
        Expr::Subquery { of, sight, .. } => {
            let operand = parts[0];
            Ok(judge_subquery(span_of(of), &operand, sight))
        }
        Expr::Paren { .. } => Ok(parts[0]),
        Expr::Unary { of, .. } => {
            let operand = parts[0];
            let fault = side_fault(Operands::Numbers, span_of(of), &operand);
            Ok(unless(fault, operand))
        }
        Expr::Binary {
            op,
            modifier,
            left,
            right,
            span,
        } => {
            let (left_side, right_side) = (parts[0], parts[1]);
            let fault = sides_fault(*op, span_of(left), &left_side, span_of(right), &right_side);
            let own = modifier_fault(alloc, *op, modifier, *span, &left_side, &right_side)?;
            Ok(unless(
                Fault::first(fault, own),
                Ok(joined_at(&left_side, &right_side)),
            ))
        }
        Expr::Call { name, args, span } => {
            let call = called(name.as_str(), args.len(), *span);
            Ok(judge_call(&call, args.as_slice(), parts))
        }
        Expr::Aggregate { op, args, span, .. } => {
            let call = counted(Function::of_aggregation(*op), args.len(), *span);
            Ok(judge_call(&call, args.as_slice(), parts))
        }
    }
}

/// The type of a subquery, or the breach that is told, from that of its operand.
fn judge_subquery(span: Span, operand: &Judged, sight: &Sight) -> Judged
    ensures { result ≡ unless (first (side_fault is_vector span operand.now) (range_fault sight.now)) (Ok ExprType.Range) }
{
    let fault = side_fault(Operands::Vectors, span, operand);
    unless(Fault::first(fault, range_fault(sight)), Ok(ExprType::Range))
}

/// The breach of two sides of an operator that is told.
fn sides_fault(
    op: Op,
    left_span: Span,
    left: &Judged,
    right_span: Span,
    right: &Judged,
) -> Option<Fault>
    ensures { result ≡ first (side_fault (takes_side op) left_span left.now) (side_fault (takes_side op) right_span right.now) }
{
    let operands = operands_of(op);
    Fault::first(
        side_fault(operands, left_span, left),
        side_fault(operands, right_span, right),
    )
}

/// The type of a call, or the breach that is told, from those of its arguments.
fn judge_call(call: &Called, args: &[Expr], judged_args: &[Judged]) -> Judged
    requires { judged_args.now ≡ map (λ e. judged (tree e)) args.now }
    ensures { result ≡ call_judged (call_of call.now) (trees args.now) }
{
    let mut fault = own_fault(call);
    for k in 0..args.len() {
        fault = Fault::first(fault, argument_fault(call, k, &args[k], &judged_args[k]));
    }
    unless(fault, given(call))
}
