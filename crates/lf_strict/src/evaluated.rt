//! What is kept of the parts of an expression until its own samples are made.
ghost use Rattle.std.specs.Prelude.{◌≡◌, ◌≤◌, IfOk, IfSome, List, length};
ghost use Rattle.std.specs.Option.{option_map};
ghost use Rattle.lf_ast.specs.Functions.{signature_of};
ghost use Rattle.lf_ast.specs.Labels.{Labels};
ghost use Rattle.lf_ast.specs.Tree.{Tree, trees};
ghost use Rattle.lf_ast.specs.Types.{is_scalar, joined, selected};
ghost use Rattle.lf_semantics.specs.Parts.{given_by};
ghost use Rattle.lf_witness.specs.Ascending.{IsAscending};
ghost use Rattle.lf_witness.specs.Strict.{AreSelected, IsSet, StrictBinary, StrictCall, StrictSign, StrictlyEvaluates};
ghost use Rattle.lf_witness.specs.StrictRuns.{InOrder, IsStrictAnswer};
ghost use Rattle.lf_strict.specs.views.Evaluated.{operand_of};

use crate::effects::called;
use crate::lending::Samples;
use crate::operand::behind_sign;
use crate::operating::operated;
use crate::store::Store;
use lf_ast::walk::Parts;
use lf_ast::{
    Expr, ExprType, Function, Grouping, LabelSet, Matcher, Matching, Op, is_scalar, joined,
    selected,
};
use lf_base::{Memory, Text};
use lf_nodes::the_only;
use std::alloc::Global;

/// What an expression gives, and the type that its form tells.
#[derive(Drop)]
pub struct Evaluated<'a> {
    pub answer: Option<Samples<'a>>,
    pub form: ExprType,
}

/// What the only one of these gives, and None where there is none.
pub fn operand<'a>(parts: Vec<Evaluated<'a>>) -> Option<Samples<'a>>
    requires { length parts.items ≤ 1 }
    ensures { result ≡ operand_of parts.entry.items }
{
    if parts.is_empty() {
        None
    } else {
        the_only(parts).answer
    }
}

/// A selector.
pub fn selector<'a>(
    alloc: Global,
    store: &'a Store<'a>,
    name: &Option<Text>,
    matchers: &[Matcher],
    range: &Option<Text>,
) -> Result<Evaluated<'a>, Memory>
    ensures answer { IfOk result (λ made. InOrder (IsSet (AreSelected store.now name.now matchers.now)) made.answer) }
    ensures form { IfOk result (λ made. made.form ≡ selected range.now) }
{
    let samples = store.select(alloc, name, matchers)?;
    Ok(Evaluated {
        answer: Some(samples),
        form: selected(range),
    })
}

/// A sign before an operand.
pub fn signed<'a>(
    alloc: Global,
    minus: bool,
    operand: Evaluated<'a>,
) -> Result<Evaluated<'a>, Memory>
    requires { IfSome operand.answer IsAscending }
    ensures answer { (W : List Labels) (e : Tree) → IsStrictAnswer W e operand.entry.answer → IfOk result (λ made. InOrder (StrictSign minus (StrictlyEvaluates W e)) made.answer) }
    ensures form { IfOk result (λ made. made.form ≡ operand.entry.form) }
{
    let form = operand.form;
    let answer = behind_sign(alloc, minus, operand.answer)?;
    Ok(Evaluated { answer, form })
}

/// An operator between two sides. What a scalar gives isn't looked at.
pub fn binary<'a>(
    alloc: Global,
    op: Op,
    matching: &Matching,
    left: Evaluated<'a>,
    right: Evaluated<'a>,
) -> Result<Evaluated<'a>, Memory>
    requires left { IfSome left.answer IsAscending }
    requires right { IfSome right.answer IsAscending }
    ensures answer { (W : List Labels) (d e : Tree) → IsStrictAnswer W d left.entry.answer → IsStrictAnswer W e right.entry.answer → IfOk result (λ made. InOrder (StrictBinary op matching.now (is_scalar left.entry.form) (is_scalar right.entry.form) (StrictlyEvaluates W d) (StrictlyEvaluates W e)) made.answer) }
    ensures form { IfOk result (λ made. made.form ≡ joined left.entry.form right.entry.form) }
{
    let form = joined(left.form, right.form);
    let answer = operated(
        alloc,
        op,
        matching,
        is_scalar(left.form),
        is_scalar(right.form),
        left.answer,
        right.answer,
    )?;
    Ok(Evaluated { answer, form })
}

/// A call of a function, or of none, with what its operand gives.
pub fn call<'a>(
    alloc: Global,
    function: Option<Function>,
    grouping: &Grouping,
    args: &[Expr],
    operand: Option<Samples<'a>>,
) -> Result<Evaluated<'a>, Memory>
    requires { IfSome operand IsAscending }
    ensures answer { (W : List Labels) (e : Tree) → IsStrictAnswer W e operand.entry → IfOk result (λ made. InOrder (StrictCall (option_map signature_of function) grouping.now (trees args.now) (λ place. StrictlyEvaluates W e)) made.answer) }
    ensures form { IfOk result (λ made. made.form ≡ given_by (option_map signature_of function)) }
{
    let form = given_by(&function);
    let answer = called(alloc, function, grouping, args, operand)?;
    Ok(Evaluated { answer, form })
}

/// The type that a function gives. What calls none counts as a vector.
fn given_by(function: &Option<Function>) -> ExprType
    ensures { result ≡ given_by (option_map signature_of function.now) }
{
    match function {
        Some(function) => function.gives,
        None => ExprType::Vector,
    }
}
