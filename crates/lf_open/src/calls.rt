//! What is open at a call.
ghost use Rattle.std.specs.Prelude.{◌≡◌, ◌↔◌, IfOk, IsTrue, Some};
ghost use Rattle.std.specs.List.{list_any};
ghost use Rattle.lf_ast.specs.Tree.{tree};
ghost use Rattle.lf_ast.specs.declared.functions.LabelEffect.TheVariants.{Absent};
ghost use Rattle.lf_semantics.specs.Parts.{sought_in};
ghost use Rattle.lf_witness.specs.Strict.{IsOpenAbsent};
ghost use Rattle.lf_open.specs.Constructs.{effect_of};
ghost use Rattle.lf_open.specs.Holding.{arguments_of};
ghost use Rattle.lf_open.specs.views.Told.{call_opens};

use crate::absence::is_open;
use crate::adding::push_if;
use crate::construct::Construct;
use crate::forms::{arguments_of, effect_of};
use crate::open_at::OpenAt;
use crate::told::ExpressionFacts;
use lf_ast::{Expr, LabelEffect};
use lf_base::{Memory, Seq, Span};
use std::alloc::Global;

/// What is open at a call of this effect, by what is told of its arguments: it is a `histogram_quantile` beneath which a fork stands or `le` is named, or an `absent` whose
/// argument can't be silent.
pub(crate) fn open_at_call(
    alloc: Global,
    rule: u32,
    effect: Option<LabelEffect>,
    span: Span,
    args: &[ExpressionFacts],
) -> Result<Seq<OpenAt>, Memory>
    ensures { IfOk result (λ found. found ≡ call_opens rule effect span args.now) }
{
    let mut found = Seq::new(alloc);
    match effect {
        Some(LabelEffect::HistogramQuantile) => {
            push_if(any_fork(args), Construct::Forked, rule, span, &mut found)?;
            push_if(
                any_bucket(args),
                Construct::NamedBucket,
                rule,
                span,
                &mut found,
            )?;
            Ok(found)
        }
        Some(LabelEffect::Absent) => {
            push_if(
                any_loud(args),
                Construct::OpenAbsent,
                rule,
                span,
                &mut found,
            )?;
            Ok(found)
        }
        _ => Ok(found),
    }
}

/// Whether one of these holds a fork.
fn any_fork(parts: &[ExpressionFacts]) -> bool
    ensures { result ≡ list_any (λ t. t.fork) parts.now }
{
    parts.iter().any(|part| part.fork)
}

/// Whether one of these can't be silent.
fn any_loud(parts: &[ExpressionFacts]) -> bool
    ensures { result ≡ list_any (λ t. t.loud) parts.now }
{
    parts.iter().any(|part| part.loud)
}

/// Whether `le` is named beneath one of these.
fn any_bucket(parts: &[ExpressionFacts]) -> bool
    ensures { result ≡ list_any (λ t. t.bucket) parts.now }
{
    parts.iter().any(|part| part.bucket)
}

/// Whether an expression is an `absent` that is open by the selector that it is of.
pub(crate) fn is_open_absent(expr: &Expr) -> bool
    ensures { IsTrue result ↔ ((effect_of (tree expr.now) ≡ Some Absent) × IsOpenAbsent (sought_in (arguments_of (tree expr.now)))) }
{
    match effect_of(expr) {
        Some(LabelEffect::Absent) => is_open(arguments_of(expr)),
        _ => false,
    }
}
