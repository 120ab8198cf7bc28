//! The call `expressions`: the tree of a text as an S-expression and its spans, or its refusal, as JSON.
ghost use Rattle.std.specs.Prelude.{◌≡◌, ◌+◌, length};
ghost use Rattle.std.specs.List.Sorted.{IsNonDecreasing};

use crate::answer::{Answer, refused};
use crate::case::TestCase;
use crate::spans::write_spans;
use crate::timing::Stopwatch;
use crate::tokens::source_of;
use crate::tree::tree_of;
use anyhow::Result;
use lf_ast::Expr;
use lf_base::{Refusal, Seq, Text};
use lf_lex::lex;
use lf_parse::parse;
use std::alloc::Global;
use std::time::Duration;

/// Writes what `parse` answers on the tokens of a case's text.
pub fn answer(alloc: Global, case: &TestCase, answer: &mut Answer) -> Result<()> {
    let (text, from) = source_of(alloc, case.text()?)?;
    match read(alloc, &text, &from) {
        Ok(expr) => {
            write_spans(&mut answer.spans, &expr);
            answer.expect.string(tree_of(alloc, &expr).text()?);
        }
        Err(refusal) => answer.expect.refusal(refusal),
    }
    Ok(())
}

/// The processor time of `parse` on the tokens of a text.
pub fn time(rt: &HostRuntime, text: &str) -> Result<Duration> {
    let (text, from) = source_of(rt.alloc(), text)?;
    let tokens = lex(rt.alloc(), &text, &from).map_err(refused)?;
    let end = *from.get(text.len());
    let watch = Stopwatch::start(rt);
    let expr = parse(rt.alloc(), &tokens, end);
    watch.taken(rt, expr.map_err(refused))
}

/// The expression that a text is, or its refusal.
pub fn read(alloc: Global, text: &Text, from: &Seq<u32>) -> Result<Expr, Refusal>
    requires count { length from.now ≡ length text.now + 1 }
    requires rises { IsNonDecreasing from.now }
{
    let tokens = lex(alloc, text, from)?;
    parse(alloc, &tokens, *from.get(text.len()))
}
