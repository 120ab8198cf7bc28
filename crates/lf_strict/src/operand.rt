//! What is made of what an operand gives.
ghost use Rattle.std.specs.Prelude.{IfOk, IfSome, List};
ghost use Rattle.lf_ast.specs.Labels.{Labels};
ghost use Rattle.lf_ast.specs.Tree.{Tree};
ghost use Rattle.lf_witness.specs.Ascending.{IsAscending};
ghost use Rattle.lf_semantics.specs.Evaluation.{IsQuantile};
ghost use Rattle.lf_witness.specs.Strict.{From, MadeApart, MadeTogether, StrictBesideScalar, StrictSign, StrictlyEvaluates, last_buckets};
ghost use Rattle.lf_witness.specs.StrictRuns.{InOrder, IsStrictAnswer};

use crate::becoming::{Becoming, made_apart, made_together};
use crate::buckets::{Unbucketed, last_buckets};
use crate::lending::Samples;
use crate::samples::Nameless;
use lf_ast::LabelSet;
use lf_base::Memory;
use std::alloc::Global;

/// What the samples of an operand become, and None where it is None or two become one.
pub fn operand_apart<'a, B: Becoming>(
    alloc: Global,
    how: &B,
    operand: Option<Samples<'a>>,
) -> Result<Option<Samples<'a>>, Memory>
    requires { IfSome operand IsAscending }
    ensures { (W : List Labels) (e : Tree) → IsStrictAnswer W e operand.entry → IfOk result (InOrder (From (StrictlyEvaluates W e) (MadeApart (B.becomes how.now)))) }
{
    match operand {
        Some(samples) => made_apart(alloc, how, samples),
        None => Ok(None),
    }
}

/// What the samples of an operand become, where those that become one count once, and None where it is None.
pub fn operand_together<'a, B: Becoming>(
    alloc: Global,
    how: &B,
    operand: Option<Samples<'a>>,
) -> Result<Option<Samples<'a>>, Memory>
    ensures { (W : List Labels) (e : Tree) → IsStrictAnswer W e operand.entry → IfOk result (InOrder (From (StrictlyEvaluates W e) (MadeTogether (B.becomes how.now)))) }
{
    match operand {
        Some(samples) => Ok(Some(made_together(alloc, how, samples)?)),
        None => Ok(None),
    }
}

/// What an operand gives behind a sign: behind a minus without the metric name.
pub fn behind_sign<'a>(
    alloc: Global,
    minus: bool,
    operand: Option<Samples<'a>>,
) -> Result<Option<Samples<'a>>, Memory>
    requires { IfSome operand IsAscending }
    ensures { (W : List Labels) (e : Tree) → IsStrictAnswer W e operand.entry → IfOk result (InOrder (StrictSign minus (StrictlyEvaluates W e))) }
{
    if minus {
        operand_apart(alloc, &Nameless, operand)
    } else {
        Ok(operand)
    }
}

/// What an operand gives beside a scalar: a filter lets all its samples through, and any other operator drops the metric name.
pub fn beside_scalar<'a>(
    alloc: Global,
    filter: bool,
    operand: Option<Samples<'a>>,
) -> Result<Option<Samples<'a>>, Memory>
    requires { IfSome operand IsAscending }
    ensures { (W : List Labels) (e : Tree) → IsStrictAnswer W e operand.entry → IfOk result (InOrder (StrictBesideScalar filter (StrictlyEvaluates W e))) }
{
    if filter {
        Ok(operand)
    } else {
        operand_apart(alloc, &Nameless, operand)
    }
}

/// What `histogram_quantile` gives of an operand: of its last buckets alone.
pub fn quantile<'a>(
    alloc: Global,
    operand: &Option<Samples<'_>>,
) -> Result<Option<Samples<'a>>, Memory>
    requires { IfSome operand.now IsAscending }
    ensures { (W : List Labels) (e : Tree) → IsStrictAnswer W e operand.now → IfOk result (InOrder (From (StrictlyEvaluates W e) (λ P. MadeApart IsQuantile (last_buckets P)))) }
{
    match operand {
        Some(samples) => {
            let last = last_buckets(alloc, samples.as_slice())?;
            made_apart(alloc, &Unbucketed, last)
        }
        None => Ok(None),
    }
}
