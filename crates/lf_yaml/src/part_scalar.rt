//! Scalars that are parts of flow collections.
ghost use Rattle.std.specs.Prelude.{◌≡◌, ◌+◌, ◌<◌, ◌≤◌, length, get_or, Some, None, IfOk};
ghost use Rattle.lf_base.specs.Answers.{AnswersAs};
ghost use Rattle.lf_scalar.specs.Cells.{cells};
ghost use Rattle.lf_scalar.specs.Scalars.{value as scalar_value};
ghost use Rattle.lf_scalar.specs.Quoted.{quote_of as quote_byte};
ghost use Rattle.lf_yaml.specs.Flow.{line_on, lines_below};
ghost use Rattle.lf_yaml.specs.reading.Trees.{part_by, flow_scalar, plain_from};
ghost use Rattle.lf_yaml.specs.reading.FlowLines.{FoldsAs};
ghost use Rattle.lf_yaml.specs.views.Places.{IsPartIn, IsPlaceIn};
ghost use Rattle.lf_yaml.specs.views.Shown.{shown};

use crate::between::quoted_scalar;
use crate::entry::quote_of;
use crate::flow_plain::{push_behind, push_line};
use crate::flow_scalar::{begins_flow_bytes, part_fault};
use crate::folded::plain_scalar;
use crate::head::byte_fault;
use crate::parts::place_from;
use crate::place::FlowCursor;
use crate::row::ContentLine;
use crate::source::YamlSource;
use lf_base::{Kind, Refusal};
use lf_scalar::Scalar;
use lf_scalar::builder::ScalarBuilder;
use lf_scalar::lines::{line_end, past};
use lf_scalar::quotes::{Quotes, find_closing};

/// The scalar between quotes that a part begins, and the place behind it. It may close on a later line.
fn quoted_part<'a>(
    source: YamlSource<'a>,
    part: ContentLine<'a>,
    next: usize,
    quote: Quotes,
) -> Result<(Scalar, FlowCursor<'a>), Refusal>
    requires part { IsPartIn source.bytes.now part next }
    requires quote { get_or part.text.now 0 0 ≡ quote_byte quote }
    ensures gives { AnswersAs (λ x. (scalar_value x.0, x.1.at)) result (part_by source.entry.bytes.now (shown part.entry).first (shown part.entry).rest (Some quote)) }
    ensures place { IfOk result (λ x. IsPlaceIn source.entry.bytes.now x.1) }
    ensures further { IfOk result (λ x. part.entry.at ≤ x.1.at) }
{
    let inside = past(source.bytes, part.at as usize + 1);
    match find_closing(quote, inside, part.at + 1) {
        None => Err(byte_fault(Kind::OpenQuote, part.at)),
        Some(closing) => match quoted_scalar(source, part.at, inside, quote, closing) {
            Ok(scalar) => {
                let after = part.at + (closing as u32 + 2);
                Ok((scalar, place_from(source, part, next, after)))
            }
            Err(refusal) => Err(refusal),
        },
    }
}

/// Appends what the lines of a plain scalar give that a part begins, and tells where the collection is read on.
fn push_plain(
    builder: &mut ScalarBuilder,
    source: YamlSource<'_>,
    part: ContentLine<'_>,
) -> Result<u32, Refusal>
    requires within { part.at < length source.bytes.now }
    requires rest { cells part.at part.text.now ≡ (line_on source.bytes.now part.at).text }
    ensures { FoldsAs result builder.old builder.new (plain_from (line_on source.entry.bytes.now part.entry.at) (lines_below source.entry.bytes.now part.entry.at)) }
{
    match push_line(builder, part.text, part.at) {
        Ok(Some(after)) => Ok(after),
        Ok(None) => {
            let rest = past(source.bytes, part.at as usize);
            let end = line_end(rest);
            let feed = part.at + end.feed as u32;
            push_behind(builder, past(rest, end.feed + 1), feed + 1, feed)
        }
        Err(refusal) => Err(refusal),
    }
}

/// The plain scalar that a part begins, and the place behind it. It may go on over later lines.
fn plain_part<'a>(
    source: YamlSource<'a>,
    part: ContentLine<'a>,
    next: usize,
) -> Result<(Scalar, FlowCursor<'a>), Refusal>
    requires part { IsPartIn source.bytes.now part next }
    ensures gives { AnswersAs (λ x. (scalar_value x.0, x.1.at)) result (part_by source.entry.bytes.now (shown part.entry).first (shown part.entry).rest None) }
    ensures place { IfOk result (λ x. IsPlaceIn source.entry.bytes.now x.1) }
    ensures further { IfOk result (λ x. part.entry.at ≤ x.1.at) }
{
    if !begins_flow_bytes(part.text[0], past(part.text, 1)) {
        return Err(part_fault(part));
    }
    let mut builder = ScalarBuilder::new(source.alloc);
    match push_plain(&mut builder, source, part) {
        Ok(after) => match plain_scalar(source.alloc, builder, part.at, source.bytes.len() as u32) {
            Ok(scalar) => Ok((scalar, place_from(source, part, next, after))),
            Err(refusal) => Err(refusal),
        },
        Err(refusal) => Err(refusal),
    }
}

/// The scalar that a part of a flow collection begins, and the place behind it. The lines behind the part's own begin at `next`.
#[tactic(auto, unfolding(crate::specs::reading::Trees::flow_scalar))]
pub fn read_part<'a>(
    source: YamlSource<'a>,
    part: ContentLine<'a>,
    next: usize,
) -> Result<(Scalar, FlowCursor<'a>), Refusal>
    requires part { IsPartIn source.bytes.now part next }
    ensures gives { AnswersAs (λ x. (scalar_value x.0, x.1.at)) result (flow_scalar source.entry.bytes.now (shown part.entry).first (shown part.entry).rest) }
    ensures place { IfOk result (λ x. IsPlaceIn source.entry.bytes.now x.1) }
    ensures further { IfOk result (λ x. part.entry.at ≤ x.1.at) }
{
    match quote_of(part.text[0]) {
        Some(quote) => quoted_part(source, part, next, quote),
        None => plain_part(source, part, next),
    }
}
