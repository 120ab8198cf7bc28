//! Reading a scalar of any style.
ghost use Rattle.std.specs.Prelude.{true, ◌≡◌, ◌+◌, ◌≤◌, ◌^◌, length, Ok, IfOk};
ghost use Rattle.std.specs.Str.{IsUtf8};
ghost use Rattle.lf_base.specs.Answers.{AnswersAs, Found, Only, Refused, Breach, RefusedIn};
ghost use Rattle.lf_scalar.specs.Cells.{bytes_of, cells};
ghost use Rattle.lf_scalar.specs.Lines.{lines_at, first_text};
ghost use Rattle.lf_scalar.specs.Offsets.{AreOffsets};
ghost use Rattle.lf_scalar.specs.Scalars.{least_above, begins, source_at, BeginsAt, IsScalarAt, BreaksAt, value};
ghost use Rattle.lf_scalar.specs.views.Built.{built as value_of};
ghost use Rattle.lf_scalar.specs.reading.Styles.{reading};

use crate::block::read_block;
use crate::joined::Joining;
use crate::lines::past;
use crate::plain::read_plain;
use crate::quoted_scalar::read_quoted;
use crate::quotes::Quotes;
use crate::raw_scalar::RawScalar;
use crate::scalar::{Scalar, Style};
use lf_base::Refusal;
use std::alloc::Global;

/// Reads the scalar of a style that begins at an offset of a file, as a value outside flow collections whose parent has an indent, -1 at the root.
///
/// `bytes` is the whole file, which is UTF-8, and `at` the offset in bytes from 0 of the scalar's first character, its quote or its sign `|` or `>` included.
pub fn read_scalar(
    alloc: Global,
    bytes: &[u8],
    at: u32,
    indent: i32,
    style: Style,
) -> Result<Scalar, Refusal>
    requires text { IsUtf8 bytes.now }
    requires room { length bytes.now ≤ 2 ^ 31 }
    requires begins { BeginsAt bytes.now at style }
    ensures found { Found value (IsScalarAt bytes.now at indent style) result }
    ensures only { Only value (IsScalarAt bytes.now at indent style) result }
    ensures refused { Refused (BreaksAt bytes.now at indent style) result }
    ensures breach { Breach value (BreaksAt bytes.now at indent style) result }
    ensures refused_inside { RefusedIn (length bytes.now) result }
    ensures offsets { IfOk result (λ s. AreOffsets s.text s.from s.span × (s.span.end ≤ length bytes.now)) }
{
    read_whole(alloc, bytes, at, spaces_above(indent), style)
}

/// The same as the readers of the styles have it, where an indent above the parent's has at least `above` spaces.
fn read_whole(
    alloc: Global,
    bytes: &[u8],
    at: u32,
    above: usize,
    style: Style,
) -> Result<Scalar, Refusal>
    requires text { IsUtf8 bytes.now }
    requires room { length bytes.now ≤ 2 ^ 31 }
    requires indent { above ≤ 2 ^ 31 }
    requires begins { BeginsAt bytes.now at style }
    ensures { AnswersAs value result (reading style above (length bytes.now) (source_at bytes.now at)) }
{
    match read_style(alloc, past(bytes, at as usize), at, above, style) {
        Ok(built) => finish(built),
        Err(refusal) => Err(refusal),
    }
}

/// How many spaces an indent above this one has at least.
fn spaces_above(indent: i32) -> usize
    ensures value { result ≡ least_above indent }
    ensures small { result ≤ 2 ^ 31 }
{
    if indent < 0 { 0 } else { indent as usize + 1 }
}

/// Reads a scalar of a style from the rest of a file, which stands at an offset.
fn read_style(
    alloc: Global,
    rest: &[u8],
    at: u32,
    above: usize,
    style: Style,
) -> Result<RawScalar, Refusal>
    requires room { at + length rest.now ≤ 2 ^ 31 }
    requires indent { above ≤ 2 ^ 31 }
    requires begins { begins style (first_text (lines_at at rest.now)) ≡ true }
    ensures { AnswersAs value_of result (reading style above (at + length rest.now) (cells at rest.now)) }
{
    match style {
        Style::Plain => read_plain(alloc, rest, at, above),
        Style::Single => read_quoted(alloc, Quotes::Single, rest, at),
        Style::Double => read_quoted(alloc, Quotes::Double, rest, at),
        Style::Literal => read_block(alloc, Joining::Literal, rest, at, above),
        Style::Folded => read_block(alloc, Joining::Folded, rest, at, above),
    }
}

/// The scalar whose text is UTF-8 and whose offsets never fall.
fn finish(built: RawScalar) -> Result<Scalar, Refusal>
    requires text { IsUtf8 (bytes_of built.builder) }
    requires offsets { AreOffsets (value_of built).text (value_of built).from built.span }
    ensures { AnswersAs value result (Ok (value_of built)) }
{
    let RawScalar { builder, end, span } = built;
    builder.into_scalar(end, span)
}
