//! The call `types`: the type of an expression, or its refusal, as JSON.
ghost use Rattle.std.specs.Prelude.{◌≡◌, ◌+◌, length};
ghost use Rattle.std.specs.List.Sorted.{IsNonDecreasing};

use crate::answer::refused;
use crate::case::TestCase;
use crate::expressions::read;
use crate::timing::Stopwatch;
use crate::tokens::source_of;
use crate::writer::Writer;
use anyhow::Result;
use lf_ast::{ExprType, type_of};
use lf_base::{Refusal, Seq, Text};
use std::alloc::Global;
use std::time::Duration;

/// Writes what `type_of` answers on the expression of a case. A text that is no expression is answered as the call that refuses it does.
pub fn answer(alloc: Global, case: &TestCase, out: &mut Writer) -> Result<()> {
    let (text, from) = source_of(alloc, case.text()?)?;
    match read_type(alloc, &text, &from) {
        Ok(of) => write_type(out, of),
        Err(refusal) => out.refusal(refusal),
    }
    Ok(())
}

/// The processor time of `type_of` on the expression of a text.
pub fn time(rt: &HostRuntime, text: &str) -> Result<Duration> {
    let (text, from) = source_of(rt.alloc(), text)?;
    let expr = read(rt.alloc(), &text, &from).map_err(refused)?;
    let watch = Stopwatch::start(rt);
    let of = type_of(rt.alloc(), &expr);
    watch.taken(rt, of.map_err(refused))
}

/// The type of the expression that a text is, or its refusal.
fn read_type(alloc: Global, text: &Text, from: &Seq<u32>) -> Result<ExprType, Refusal>
    requires count { length from.now ≡ length text.now + 1 }
    requires rises { IsNonDecreasing from.now }
{
    let expr = read(alloc, text, from)?;
    type_of(alloc, &expr)
}

fn write_type(out: &mut Writer, of: ExprType) {
    out.open("{");
    out.member("type", word(of));
    out.close("}");
}

/// A type as cases name it.
fn word(of: ExprType) -> &'static str {
    match of {
        ExprType::Str => "str",
        ExprType::Scalar => "scalar",
        ExprType::Vector => "vector",
        ExprType::Range => "range",
    }
}
