//! Calls: the number of their arguments, and what each is to be.
ghost use Rattle.std.specs.Prelude.{◌≡◌, ◌==◌, ◌||◌};
ghost use Rattle.lf_ast.specs.Functions.{function_named, signature_of};
ghost use Rattle.lf_ast.specs.Types.{is_bad_label, names_a_label, string_of, takes_count, wanted};
ghost use Rattle.lf_ast.specs.Tree.{span_of, tree};
ghost use Rattle.lf_ast.specs.reading.Judging.{argument_fault, call_of, called, counted, given, is_wanted, own_fault};

use crate::operands::Judged;
use crate::parts::{span_of, string_of};
use crate::{Expr, ExprType, Function, Further, LabelEffect};
use lf_base::names::is_label_name;
use lf_base::{Fault, Kind, Span};

/// What is called, or what is wrong with its name or the number of its arguments.
pub type Called = Result<Function, Fault>;

/// A call of a name with this many arguments. The span is the word's.
pub fn called(name: &str, count: usize, span: Span) -> Called
    ensures { call_of result ≡ called (function_named name.now) count span }
{
    match Function::named(name) {
        None => Err(Fault {
            kind: Kind::UnknownName,
            span,
        }),
        Some(function) => counted(function, count, span),
    }
}

/// A call with this many arguments.
pub fn counted(function: Function, count: usize, span: Span) -> Called
    ensures { call_of result ≡ counted (signature_of function) count span }
{
    if takes_count(&function, count) {
        Ok(function)
    } else {
        Err(Fault {
            kind: Kind::WrongCount,
            span,
        })
    }
}

/// Whether that many arguments are taken.
fn takes_count(function: &Function, count: usize) -> bool
    ensures { result ≡ takes_count (signature_of function.now) count }
{
    let least = function.takes.len();
    match function.further {
        Further::None => count == least,
        Further::One { .. } => count == least || (count > least && count - least == 1),
        Further::Any { .. } => least <= count,
    }
}

/// The breach of the call itself.
pub fn own_fault(call: &Called) -> Option<Fault>
    ensures { result ≡ own_fault (call_of call.now) }
{
    match call {
        Ok(_) => None,
        Err(fault) => Some(*fault),
    }
}

/// What a call gives whose arguments have no breach.
pub fn given(call: &Called) -> Judged
    ensures { result ≡ given (call_of call.now) }
{
    match call {
        Ok(function) => Ok(function.gives),
        Err(fault) => Err(*fault),
    }
}

/// The type that is wanted of argument `k`, counted from 0.
fn wanted(function: &Function, k: usize) -> Option<ExprType>
    ensures { result ≡ wanted (signature_of function.now) k }
{
    if k < function.takes.len() {
        return Some(function.takes[k]);
    }
    match function.further {
        Further::None => None,
        Further::One { of } | Further::Any { of } => Some(of),
    }
}

/// Whether argument `k` names a label.
fn names_a_label(labels: LabelEffect, k: usize) -> bool
    ensures { result ≡ names_a_label labels k }
{
    match labels {
        LabelEffect::LabelReplace => k == 1,
        LabelEffect::LabelJoin => k == 1 || k >= 3,
        LabelEffect::CountValues => k == 0,
        _ => false,
    }
}

/// Whether this is a string whose text is no label name.
fn is_bad_label(expr: &Expr) -> bool
    ensures { result ≡ is_bad_label (string_of (tree expr.now)) }
{
    match string_of(expr) {
        None => false,
        Some(text) => !is_label_name(text.as_str().as_bytes()),
    }
}

/// Whether the type is the one that is wanted.
fn is_wanted(wanted: Option<ExprType>, of: ExprType) -> bool
    ensures { result ≡ is_wanted wanted of }
{
    match wanted {
        None => false,
        Some(wanted) => wanted == of,
    }
}

/// The breach of argument `k`, counted from 0: one inside it, that it isn't of the type that is wanted, or that it is to name a label and doesn't.
pub fn argument_fault(call: &Called, k: usize, expr: &Expr, judged: &Judged) -> Option<Fault>
    ensures { result ≡ argument_fault (call_of call.now) k (span_of (tree expr.now)) (string_of (tree expr.now)) judged.now }
{
    match (judged, call) {
        (Err(fault), _) => Some(*fault),
        (Ok(_), Err(_)) => None,
        (Ok(of), Ok(function)) => {
            if is_wanted(wanted(function, k), *of) {
                let bad = names_a_label(function.labels, k) && is_bad_label(expr);
                Fault::when(bad, Kind::BadLabel, span_of(expr))
            } else {
                Fault::when(true, Kind::WrongType, span_of(expr))
            }
        }
    }
}
