//! A scalar between quotes, line by line.
ghost use Rattle.std.specs.Prelude.{◌≡◌, ℕ, ◌+◌, ◌<◌, ◌≤◌, ◌^◌, length};
ghost use Rattle.lf_base.specs.declared.kind.Kind.TheVariants.{OpenQuote};
ghost use Rattle.lf_base.specs.Answers.{AnswersAs};
ghost use Rattle.lf_scalar.specs.Cells.{cells, byte_fault};
ghost use Rattle.lf_scalar.specs.Lines.{lines_at, first_text};
ghost use Rattle.lf_scalar.specs.reading.Quoted.{broken, lines_behind, lines_of};
ghost use Rattle.lf_scalar.specs.views.Built.{built, refused, TextAnswers};
ghost use Rattle.lf_scalar.specs.reading.Styles.{quoted_at};

use crate::builder::ScalarBuilder;
use crate::lines::{blanks, fault_at, line_end, past, wrong_behind};
use crate::quoted::{PendingBreak, push_line, push_next};
use crate::quotes::{Quotes, find_closing};
use crate::raw_scalar::RawScalar;
use lf_base::bytes::before;
use lf_base::{Kind, Refusal, Span};
use std::alloc::Global;

/// Reads a scalar between quotes. `rest` is what the file has from the quote that opens on, which stands at an offset.
pub fn read_quoted(alloc: Global, kind: Quotes, rest: &[u8], at: u32) -> Result<RawScalar, Refusal>
    requires some { 0 < length rest.now }
    requires room { at + length rest.now ≤ 2 ^ 31 }
    ensures gives { AnswersAs built result (quoted_at kind (at + length rest.now) (cells at rest.now)) }
{
    let inner = past(rest, 1);
    let Some(closing) = find_closing(kind, inner, at + 1) else {
        return Err(open_quote(at));
    };
    let mut builder = ScalarBuilder::with_room(alloc, closing)?;
    match push_lines(&mut builder, kind, before(inner, closing + 1), at + 1) {
        Ok(()) => {}
        Err(refusal) => return Err(refusal),
    }
    let end = at + 1 + closing as u32;
    let line = first_line(past(inner, closing + 1));
    match wrong_behind(line) {
        Some(k) => Err(fault_at(Kind::NotANode, line, k, end + 1)),
        None => Ok(RawScalar {
            builder,
            end,
            span: Span {
                start: at,
                end: end + 1,
            },
        }),
    }
}

/// The refusal of a quote that nothing closes.
fn open_quote(at: u32) -> Refusal
    requires { at < 2 ^ 31 }
    ensures { result ≡ refused (byte_fault OpenQuote at) }
{
    Refusal::At {
        kind: Kind::OpenQuote,
        span: Span {
            start: at,
            end: at + 1,
        },
    }
}

/// The first line of some bytes, without its end.
fn first_line(rest: &[u8]) -> &[u8]
    ensures value { (at : ℕ) → cells at result.now ≡ first_text (lines_at at rest.now) }
    ensures within { length result.now ≤ length rest.now }
{
    before(rest, line_end(rest).text)
}

/// Appends what the lines between quotes give. `inner` is what stands behind the quote that opens, the quote that closes included.
fn push_lines(
    builder: &mut ScalarBuilder,
    kind: Quotes,
    inner: &[u8],
    at: u32,
) -> Result<(), Refusal>
    requires some { 0 < length inner.now }
    requires room { at + length inner.now ≤ 2 ^ 31 }
    ensures { TextAnswers result builder.old builder.new (lines_of kind (lines_at at inner.now)) }
{
    let end = line_end(inner);
    let break_at = at + end.feed as u32;
    match push_line(builder, kind, before(inner, end.text), at) {
        Ok(at_break) => push_behind(
            builder,
            kind,
            PendingBreak {
                at_break,
                at: break_at,
                blank: 0,
            },
            past(inner, end.feed + 1),
            break_at + 1,
        ),
        Err(refusal) => Err(refusal),
    }
}

/// Appends what the lines behind a line break give. `rest` is these lines, the first of which stands at an offset.
fn push_behind(
    builder: &mut ScalarBuilder,
    kind: Quotes,
    first: PendingBreak,
    rest: &[u8],
    at: u32,
) -> Result<(), Refusal>
    requires room { at + length rest.now ≤ 2 ^ 31 + 1 }
    requires fresh { first.blank ≡ 0 }
    ensures { TextAnswers result builder.old builder.new (lines_behind kind (broken first.at_break first.at) 0 (lines_at at rest.now)) }
{
    let mut pending = first;
    let mut left = rest;
    let mut place = at;
    while !left.is_empty() {
        let end = line_end(left);
        let line = before(left, end.text);
        if blanks(line) == line.len() {
            pending.blank += 1;
        } else {
            match push_next(builder, kind, pending, line, place) {
                Ok(at_break) => {
                    pending = PendingBreak {
                        at_break,
                        at: place + end.feed as u32,
                        blank: 0,
                    };
                }
                Err(refusal) => return Err(refusal),
            }
        }
        left = past(left, end.feed + 1);
        place = place + end.feed as u32 + 1;
    }
    Ok(())
}
