//! Block scalars: a header, and a body of lines.
ghost use Rattle.std.specs.Prelude.{true, ◌≡◌, ◌+◌, ◌<◌, ◌≤◌, ◌^◌, ◌++◌, length, drop, OnOk};
ghost use Rattle.lf_scalar.specs.declared.scalar.Style.TheVariants as style;
ghost use Rattle.lf_base.specs.Answers.{AnswersAs};
ghost use Rattle.lf_scalar.specs.Cells.{cells};
ghost use Rattle.lf_scalar.specs.Lines.{lines_at, first_text};
ghost use Rattle.lf_scalar.specs.Block.{body_of};
ghost use Rattle.lf_scalar.specs.Scalars.{begins};
ghost use Rattle.lf_scalar.specs.reading.Block.{block_text, body_read, block_of};
ghost use Rattle.lf_scalar.specs.reading.Body.{joins_of, style_of, IsBody, chomped_behind};
ghost use Rattle.lf_scalar.specs.views.Built.{built, TextAnswers};

use crate::body::{BlockBody, content_indent, find_body};
use crate::breaks::{push_break, push_breaks};
use crate::builder::ScalarBuilder;
use crate::header::{Header, read_header};
use crate::joined::{Joining, push_joined};
use crate::lines::{fault_at, line_end, past};
use crate::raw_scalar::RawScalar;
use lf_base::bytes::before;
use lf_base::{Kind, Memory, Refusal, Span};
use std::alloc::Global;

/// What becomes of the line breaks at a block scalar's end.
#[derive(Clone, Copy, PartialEq, Eq, Debug)]
pub enum Chomp {
    /// The last line has no line feed.
    Strip,
    /// The last line that isn't empty has its line feed.
    Clip,
    /// The empty lines at the end have theirs too.
    Keep,
}

/// Reads the block scalar that some bytes begin with, which stand at an offset of a file and reach to its end. The content has `above` spaces at least.
pub fn read_block(
    alloc: Global,
    joining: Joining,
    rest: &[u8],
    at: u32,
    above: usize,
) -> Result<RawScalar, Refusal>
    requires room { at + length rest.now ≤ 2 ^ 31 }
    requires indent { above ≤ 2 ^ 31 }
    requires begins { begins (style_of joining) (first_text (lines_at at rest.now)) ≡ true }
    ensures gives { AnswersAs built result (block_of (joins_of joining) above (at + length rest.now) (cells at rest.now)) }
{
    let first = line_end(rest);
    let line = past(before(rest, first.text), 1);
    let header = match read_header(line) {
        Ok(header) => header,
        Err(wrong) => return Err(fault_at(Kind::BadHeader, line, wrong, at + 1)),
    };
    let body = past(rest, first.feed + 1);
    let place = at + (first.feed + 1) as u32;
    let mut builder = ScalarBuilder::new(alloc);
    match push_body(&mut builder, joining, header, above, body, place) {
        Ok(()) => {}
        Err(refusal) => return Err(refusal),
    }
    let end = builder.end(at + 1, at + rest.len() as u32);
    let span = Span { start: at, end };
    Ok(RawScalar { builder, end, span })
}

/// Appends the text of a body that stands at an offset.
fn push_body(
    builder: &mut ScalarBuilder,
    joining: Joining,
    header: Header,
    above: usize,
    body: &[u8],
    at: u32,
) -> Result<(), Refusal>
    requires room { at + length body.now + 4 < 2 ^ 32 }
    requires indent { above ≤ 2 ^ 31 }
    ensures { TextAnswers result builder.old builder.new (body_read (joins_of joining) above (at + length body.now) header.chomp header.digit (lines_at at body.now)) }
{
    let indent = content_indent(above, header.digit, body);
    match find_body(body, at, header.digit.is_none(), above, indent) {
        Ok(found) => match push_found(builder, joining, header.chomp, indent, found, body, at) {
            Ok(()) => Ok(()),
            Err(_) => Err(Refusal::Memory),
        },
        Err(refusal) => Err(refusal),
    }
}

/// Appends the text of a body whose lines were found.
fn push_found(
    builder: &mut ScalarBuilder,
    joining: Joining,
    chomp: Chomp,
    indent: usize,
    found: BlockBody,
    body: &[u8],
    at: u32,
) -> Result<(), Memory>
    requires room { at + length body.now + 4 < 2 ^ 32 }
    requires found { IsBody indent at body.now found }
    ensures { OnOk result (builder.new ≡ builder.old ++ block_text (joins_of joining) (at + length body.now) chomp (body_of indent (lines_at at body.now))) }
{
    push_joined(builder, joining, body, at, found.full, indent)?;
    push_chomped(builder, chomp, found, body, at)
}

/// Appends what stands at a body's end: the last line's break, and those of the empty lines behind it.
fn push_chomped(
    builder: &mut ScalarBuilder,
    chomp: Chomp,
    found: BlockBody,
    body: &[u8],
    at: u32,
) -> Result<(), Memory>
    requires room { at + length body.now + 4 < 2 ^ 32 }
    requires within { found.behind ≤ length body.now + 1 }
    requires enough { found.empty ≤ length (lines_at (at + found.behind) (drop found.behind body.now)) }
    ensures { OnOk result (builder.new ≡ builder.old ++ chomped_behind chomp found (at + found.behind) (drop found.behind body.now)) }
{
    match chomp {
        Chomp::Strip => Ok(()),
        Chomp::Clip => push_break(builder, found.last),
        Chomp::Keep => {
            push_break(builder, found.last)?;
            let empty = past(body, found.behind);
            push_breaks(builder, empty, at + found.behind as u32, found.empty)
        }
    }
}
