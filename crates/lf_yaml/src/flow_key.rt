//! Keys of flow mappings.
ghost use Rattle.std.specs.Prelude.{◌≡◌, eqb, ◌+◌, ◌<◌, length, get_or, take, drop, Ok, IfOk, Some, None};
ghost use Rattle.std.specs.Str.{IsCharBoundary, IsUtf8};
ghost use Rattle.lf_base.specs.Answers.{AnswersAs};
ghost use Rattle.lf_scalar.specs.Cells.{cells, Fails};
ghost use Rattle.lf_scalar.specs.Lines.{is_blank};
ghost use Rattle.lf_scalar.specs.Folding.{trimmed as trimmed_of};
ghost use Rattle.lf_scalar.specs.Scalars.{value as scalar_value};
ghost use Rattle.lf_scalar.specs.Quoted.{quote_of as quote_byte};
ghost use Rattle.lf_yaml.specs.Flow.{next_on};
ghost use Rattle.lf_yaml.specs.reading.Trees.{quoted_part, behind_closing, no_sign as no_sign_of, flow_key as flow_key_of, flow_key_by, bare_key as bare_key_of};
ghost use Rattle.lf_yaml.specs.views.Parts.{IsTextOf};
ghost use Rattle.lf_scalar.specs.reading.Quoted.{closing_of};
ghost use Rattle.lf_yaml.specs.views.Places.{IsPartIn, IsPlaceIn, signed};
ghost use Rattle.lf_yaml.specs.views.Shown.{shown};

use crate::between::quoted_scalar;
use crate::entry::quote_of;
use crate::far_keys::is_far_part;
use crate::flow_plain::text_left;
use crate::flow_scalar::{begins_flow_bytes, part_fault, sign_fault};
use crate::head::{byte_fault, first_fault};
use crate::keys::{find_sign, is_key_left_out};
use crate::parts::{behind, next_part, place_from};
use crate::place::FlowCursor;
use crate::plain::slice_scalar;
use crate::row::ContentLine;
use crate::source::YamlSource;
use lf_base::bytes::before;
use lf_base::{Kind, Refusal, Span};
use lf_scalar::Scalar;
use lf_scalar::lines::{blanks, past, trimmed_len};
use lf_scalar::quotes::{Quotes, find_closing};
use std::alloc::Global;

/// What is told where no `:` stands behind a key: what is broken before the next part, or this part.
fn no_sign(source: YamlSource<'_>, place: FlowCursor<'_>) -> Refusal
    requires place { IsPlaceIn source.bytes.now place }
    ensures { Fails result (no_sign_of (next_on source.entry.bytes.now place.entry.at)) }
{
    match next_part(source, place) {
        Ok((part, _)) => sign_fault(part),
        Err(refusal) => refusal,
    }
}

/// The scalar of a key without quotes, whose `:` stands at a place of its part.
fn bare_scalar(alloc: Global, part: ContentLine<'_>, place: usize) -> Result<Scalar, Refusal>
    requires utf8 { IsUtf8 part.text.now }
    requires within { place < length part.text.now }
    requires sign { get_or part.text.now place 0 ≡ 58 }
    ensures { AnswersAs scalar_value result (Ok (bare_key_of (shown part.entry).first (trimmed_of is_blank (cells part.entry.at (take place part.entry.text.now))))) }
{
    let len = trimmed_len(before(part.text, place));
    let end = part.at + len as u32;
    slice_scalar(
        alloc,
        before(part.text, len),
        part.at,
        Span {
            start: part.at,
            end,
        },
    )
}

/// The key without quotes that a part begins, and the place of its `:` in the part. Some are left out. The lines behind the part's own begin at `next`.
fn bare_key(
    source: YamlSource<'_>,
    part: ContentLine<'_>,
    next: usize,
) -> Result<(Scalar, usize), Refusal>
    requires part { IsPartIn source.bytes.now part next }
    ensures gives { AnswersAs (signed part.entry) result (flow_key_by source.entry.bytes.now (shown part.entry).first (shown part.entry).rest None) }
    ensures within { IfOk result (λ x. x.1 < length part.entry.text.now) }
    ensures sign { IfOk result (λ x. get_or part.entry.text.now x.1 0 ≡ 58) }
{
    if !begins_flow_bytes(part.text[0], past(part.text, 1)) {
        return Err(part_fault(part));
    }
    match find_sign(true, part.text, part.at) {
        Some(place) => {
            if is_key_left_out(before(part.text, place)) {
                return Err(first_fault(Kind::LeftOut, part));
            }
            match bare_scalar(source.alloc, part, place) {
                Ok(scalar) => Ok((scalar, place)),
                Err(refusal) => Err(refusal),
            }
        }
        None => {
            let after = text_left(source.bytes, part);
            Err(no_sign(source, place_from(source, part, next, after)))
        }
    }
}

/// The scalar between quotes that a part begins and that closes on its line, and how many bytes of the part it takes.
fn quoted_scalar_on(
    source: YamlSource<'_>,
    part: ContentLine<'_>,
    quote: Quotes,
) -> Result<(Scalar, usize), Refusal>
    requires part { IsTextOf source.bytes.now part }
    requires quote { get_or part.text.now 0 0 ≡ quote_byte quote }
    ensures gives { AnswersAs (λ x. (scalar_value x.0, part.entry.at + x.1)) result (quoted_part quote (shown part.entry).first (closing_of quote 0 (shown part.entry).rest)) }
    ensures left { IfOk result (λ x. behind_closing (closing_of quote 0 (shown part.entry).rest) ≡ cells (part.entry.at + x.1) (drop x.1 part.entry.text.now)) }
    ensures cut { IsUtf8 part.entry.text.now → IfOk result (λ x. IsCharBoundary part.entry.text.now x.1) }
{
    let inside = past(part.text, 1);
    match find_closing(quote, inside, part.at + 1) {
        None => Err(byte_fault(Kind::OpenQuote, part.at)),
        Some(closing) => match quoted_scalar(source, part.at, inside, quote, closing) {
            Ok(scalar) => Ok((scalar, closing + 2)),
            Err(refusal) => Err(refusal),
        },
    }
}

/// The key between quotes that a part begins, and the place of its `:` in the part. It is left out where the `:` stands too far behind, whatever is between the quotes.
fn quoted_key(
    source: YamlSource<'_>,
    part: ContentLine<'_>,
    next: usize,
    quote: Quotes,
) -> Result<(Scalar, usize), Refusal>
    requires part { IsPartIn source.bytes.now part next }
    requires quote { get_or part.text.now 0 0 ≡ quote_byte quote }
    ensures gives { AnswersAs (signed part.entry) result (flow_key_by source.entry.bytes.now (shown part.entry).first (shown part.entry).rest (Some quote)) }
    ensures within { IfOk result (λ x. x.1 < length part.entry.text.now) }
    ensures sign { IfOk result (λ x. get_or part.entry.text.now x.1 0 ≡ 58) }
{
    if is_far_part(part, quote) {
        return Err(first_fault(Kind::LeftOut, part));
    }
    match quoted_scalar_on(source, part, quote) {
        Ok((scalar, len)) => {
            let place = len + blanks(past(part.text, len));
            if is_colon(part.text, place) {
                Ok((scalar, place))
            } else {
                Err(no_sign(source, behind(part, len, next)))
            }
        }
        Err(refusal) => Err(refusal),
    }
}

/// Whether a `:` stands at a place.
fn is_colon(text: &[u8], place: usize) -> bool
    ensures { result ≡ eqb (get_or text.now place 0) 58 }
{
    place < text.len() && text[place] == b':'
}

/// The key that a part of a flow mapping begins, and the place of its `:` in the part. The lines behind the part's own begin at `next`.
#[tactic(auto, unfolding(crate::specs::reading::Trees::flow_key))]
pub fn flow_key(
    source: YamlSource<'_>,
    part: ContentLine<'_>,
    next: usize,
) -> Result<(Scalar, usize), Refusal>
    requires part { IsPartIn source.bytes.now part next }
    ensures gives { AnswersAs (signed part.entry) result (flow_key_of source.entry.bytes.now (shown part.entry).first (shown part.entry).rest) }
    ensures within { IfOk result (λ x. x.1 < length part.entry.text.now) }
    ensures sign { IfOk result (λ x. get_or part.entry.text.now x.1 0 ≡ 58) }
{
    match quote_of(part.text[0]) {
        Some(quote) => quoted_key(source, part, next, quote),
        None => bare_key(source, part, next),
    }
}
