//! What is open at an operator between two vectors, by what is told of its sides.
ghost use Rattle.std.specs.Prelude.{◌≡◌, IfOk};
ghost use Rattle.lf_trials.specs.Forks.{is_or};
ghost use Rattle.lf_open.specs.views.Sides.{is_unless};
ghost use Rattle.lf_open.specs.views.Told.{are_vectors, joins, operator_opens};

use crate::adding::push_if;
use crate::construct::Construct;
use crate::open_at::OpenAt;
use crate::told::ExpressionFacts;
use lf_ast::Op;
use lf_base::{Memory, Seq, Span};
use lf_forks::is_or;
use std::alloc::Global;

/// What is open at an operator: its sides read a common metric, it joins what a fork gives or is an `or` with a side that can't be silent, or it is an `unless` whose right
/// side can't be silent.
pub(crate) fn open_at_operator(
    alloc: Global,
    rule: u32,
    op: Op,
    span: Span,
    left: &ExpressionFacts,
    right: &ExpressionFacts,
) -> Result<Seq<OpenAt>, Memory>
    ensures { IfOk result (λ found. found ≡ operator_opens rule op span left.now right.now) }
{
    let vectors = are_vectors(left, right);
    let shared = left.reads.shares(&right.reads);
    let joined = joins(op, left, right);
    let loud = is_unless(op) && right.loud;
    let mut found = Seq::new(alloc);
    push_if(
        vectors && shared,
        Construct::SharedMetric,
        rule,
        span,
        &mut found,
    )?;
    push_if(vectors && joined, Construct::Forked, rule, span, &mut found)?;
    push_if(
        vectors && loud,
        Construct::LoudUnless,
        rule,
        span,
        &mut found,
    )?;
    Ok(found)
}

/// Whether neither side is a scalar.
fn are_vectors(left: &ExpressionFacts, right: &ExpressionFacts) -> bool
    ensures { result ≡ are_vectors left.now right.now }
{
    !left.scalar && !right.scalar
}

/// Whether a side of an `or` can't be silent, and of another operator whether a side holds a fork.
fn joins(op: Op, left: &ExpressionFacts, right: &ExpressionFacts) -> bool
    ensures { result ≡ joins op left.now right.now }
{
    if is_or(op) {
        left.loud || right.loud
    } else {
        left.fork || right.fork
    }
}

/// Whether an operator is an `unless`.
fn is_unless(op: Op) -> bool
    ensures { result ≡ is_unless op }
{
    match op {
        Op::Unless => true,
        _ => false,
    }
}
