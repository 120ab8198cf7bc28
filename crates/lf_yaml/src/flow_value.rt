//! Values of flow mappings, and the places behind them.
ghost use Rattle.std.specs.Prelude.{◌≡◌, ◌||◌, eqb, suc, ◌<◌, ◌≤◌, ◌^◌, Ok, IfOk};
ghost use Rattle.lf_base.specs.Answers.{AnswersAs};
ghost use Rattle.lf_scalar.specs.Cells.{cell};
ghost use Rattle.lf_scalar.specs.Scalars.{value as scalar_value};
ghost use Rattle.lf_yaml.specs.Tree.{leaf};
ghost use Rattle.lf_yaml.specs.Spans.{empty_at};
ghost use Rattle.lf_yaml.specs.reading.Trees.{flow_value as flow_value_of};
ghost use Rattle.lf_yaml.specs.views.Places.{IsPlaceIn};

use crate::part_scalar::read_part;
use crate::parts::next_part;
use crate::place::FlowCursor;
use crate::plain::slice_scalar;
use crate::source::YamlSource;
use lf_base::{Refusal, Span};
use lf_scalar::Scalar;
use std::alloc::Global;

/// Whether a byte stands where a value is missing: a `,` or a `}`.
fn ends_value(byte: u8) -> bool
    ensures { result ≡ (eqb byte 44 || eqb byte 125) }
{
    byte == b',' || byte == b'}'
}

/// The empty text at an offset, where a value is missing.
pub fn missing_value(alloc: Global, at: u32) -> Result<Scalar, Refusal>
    requires { at ≤ 2 ^ 31 }
    ensures { AnswersAs (λ s. leaf (scalar_value s)) result (Ok (empty_at at)) }
{
    slice_scalar(alloc, &[], at, Span { start: at, end: at })
}

/// The value of an entry of a flow mapping whose `:` stands at an offset, and the place behind it. A value that is missing, before a `,` or a `}`, is the empty text.
#[tactic(auto, unfolding(crate::specs::reading::Trees::flow_value))]
pub fn flow_value<'a>(
    source: YamlSource<'a>,
    colon: u32,
    place: FlowCursor<'a>,
) -> Result<(Scalar, FlowCursor<'a>), Refusal>
    requires colon { colon < 2 ^ 31 }
    requires place { IsPlaceIn source.bytes.now place }
    requires behind { place.at ≡ suc colon }
    ensures gives { AnswersAs (λ x. (leaf (scalar_value x.0), x.1.at)) result (flow_value_of source.entry.bytes.now (cell 58 colon)) }
    ensures place { IfOk result (λ x. IsPlaceIn source.entry.bytes.now x.1) }
    ensures further { IfOk result (λ x. place.entry.at ≤ x.1.at) }
{
    match next_part(source, place) {
        Ok((part, next)) => {
            if ends_value(part.text[0]) {
                match missing_value(source.alloc, colon + 1) {
                    Ok(scalar) => Ok((scalar, place)),
                    Err(refusal) => Err(refusal),
                }
            } else {
                read_part(source, part, next)
            }
        }
        Err(refusal) => Err(refusal),
    }
}
