//! Whether an expression's patterns can be read, and its selectors name a metric.
ghost use Rattle.std.specs.Prelude.{◌≡◌, ℕ, fold, map, IfOk};
ghost use Rattle.lf_base.specs.Answers.{Answers, Breach, Found, Only, Refused, RefusedIn};
ghost use Rattle.lf_base.specs.Faults.{first};
ghost use Rattle.lf_ast.specs.Inside.{Inside};
ghost use Rattle.lf_ast.specs.Tree.{parts_of, tree};
ghost use Rattle.lf_classes.specs.Checked.{HasNoBreach};
ghost use Rattle.lf_classes.specs.reading.Checking.{pattern_fault, patterns_checked};
ghost use Rattle.lf_semantics.specs.PatternBreaches.{TellsPattern};

use crate::ReadPatterns;
use crate::patterns::{call_fault, selector_fault};
use lf_ast::Expr;
use lf_ast::walk::{Fold, Parts, fold_up};
use lf_base::{Fault, Memory, Refusal};
use std::alloc::Global;

/// Refuses the first breach of an expression's patterns and selectors, by its start and, at one start, `BadPattern` first.
///
/// `BadPattern` stands at a pattern that can't be read: the value of a `=~` or `!~`, or the fifth argument of `label_replace`. `BadSelector` stands at a selector
/// whose matchers all pass the empty text, so that it names no metric, and at one with a name before its braces and a matcher on `__name__`.
pub fn check_patterns(alloc: Global, expr: &Expr) -> Result<(), Refusal>
    // Where it passes, nothing is wrong.
    ensures found { Found (λ t. t) (HasNoBreach (tree expr.now)) result }
    // Where nothing is wrong it passes, unless memory runs out.
    ensures only { Only (λ t. t) (HasNoBreach (tree expr.now)) result }
    // What is refused is the breach that is told.
    ensures refused { Refused (TellsPattern (tree expr.now)) result }
    // It is refused, unless memory runs out; so no expression tells two breaches.
    ensures breach { Breach (λ t. t) (TellsPattern (tree expr.now)) result }
    // In a source that each span of the expression lies in lies what is refused, too.
    ensures refused_inside { (n : ℕ) → Inside n (tree expr.now) → RefusedIn n result }
{
    check_patterns_by(alloc, &ReadPatterns::new(alloc), expr)
}

/// The same, where some patterns may be known: of those that were read none is read again for whether it can be.
pub fn check_patterns_by(alloc: Global, known: &ReadPatterns, expr: &Expr) -> Result<(), Refusal>
    // Where it passes, nothing is wrong.
    ensures found { Found (λ t. t) (HasNoBreach (tree expr.now)) result }
    // Where nothing is wrong it passes, unless memory runs out.
    ensures only { Only (λ t. t) (HasNoBreach (tree expr.now)) result }
    // What is refused is the breach that is told.
    ensures refused { Refused (TellsPattern (tree expr.now)) result }
    // It is refused, unless memory runs out; so no expression tells two breaches.
    ensures breach { Breach (λ t. t) (TellsPattern (tree expr.now)) result }
    // In a source that each span of the expression lies in lies what is refused, too.
    ensures refused_inside { (n : ℕ) → Inside n (tree expr.now) → RefusedIn n result }
{
    check(alloc, known, expr)
}

/// The same, by one pass over the expression.
fn check(alloc: Global, known: &ReadPatterns, expr: &Expr) -> Result<(), Refusal>
    ensures { Answers result (patterns_checked (tree expr.now)) }
{
    match fold_up(alloc, &PatternCheck { known }, expr)? {
        None => Ok(()),
        Some(fault) => Err(Refusal::At {
            kind: fault.kind,
            span: fault.span,
        }),
    }
}

/// The breach of an expression that is told, from those of its parts.
#[derive(Drop)]
struct PatternCheck<'a> {
    known: &'a ReadPatterns,
}

impl<'a> Fold for PatternCheck<'a> {
    type Value = Option<Fault>;

    type Note = ();

    ghost use Rattle.lf_classes.specs.reading.Checking.{pattern_fault};
    ghost use Rattle.lf_ast.specs.declared.walk.choosing.Parts.TheVariants.{All};

    ghost value = { λ check e. pattern_fault e };

    ghost needed = { λ check e. All };

    ghost notes = { λ e note. Unit {0} };

    fn enter(&self, _expr: &Expr) -> (Parts, ()) {
        (Parts::All, ())
    }

    fn step(
        &self,
        alloc: Global,
        expr: &Expr,
        _note: (),
        values: Vec<Option<Fault>>,
    ) -> Result<Option<Fault>, Memory>
        requires { values.items ≡ map pattern_fault (parts_of (tree expr.now)) }
        ensures { IfOk result (λ found. found ≡ pattern_fault (tree expr.now)) }
    {
        told(alloc, self.known, expr, values.as_slice())
    }
}

/// The breach that is told, if there is one, from those of the parts.
fn told(
    alloc: Global,
    known: &ReadPatterns,
    expr: &Expr,
    parts: &[Option<Fault>],
) -> Result<Option<Fault>, Memory>
    requires { parts.now ≡ map pattern_fault (parts_of (tree expr.now)) }
    ensures { IfOk result (λ found. found ≡ pattern_fault (tree expr.now)) }
{
    match expr {
        Expr::Number { .. } => Ok(None),
        Expr::Str { .. } => Ok(None),
        Expr::Selector {
            name,
            matchers,
            span,
            ..
        } => selector_fault(alloc, known, name, matchers.as_slice(), *span),
        Expr::Subquery { .. } => Ok(parts[0]),
        Expr::Paren { .. } => Ok(parts[0]),
        Expr::Unary { .. } => Ok(parts[0]),
        Expr::Binary { .. } => Ok(Fault::first(parts[0], parts[1])),
        Expr::Call { name, args, .. } => {
            let own = call_fault(alloc, known, name.as_str(), args.as_slice())?;
            Ok(first_of(own, parts))
        }
        Expr::Aggregate { .. } => Ok(first_of(None, parts)),
    }
}

/// Of a breach, if there is one, and those of arguments the one that is told.
fn first_of(own: Option<Fault>, arguments: &[Option<Fault>]) -> Option<Fault>
    ensures { result ≡ fold first own arguments.now }
{
    let mut fault = own;
    for found in arguments {
        fault = Fault::first(fault, *found);
    }
    fault
}
