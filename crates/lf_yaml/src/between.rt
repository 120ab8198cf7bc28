//! Scalars between quotes that close on their line.
ghost use Rattle.std.specs.Prelude.{◌≡◌, ◌+◌, ◌<◌, ◌≤◌, ◌∷◌, length, get_or, take, drop, Some};
ghost use Rattle.lf_base.specs.Answers.{AnswersAs};
ghost use Rattle.lf_scalar.specs.Cells.{cell};
ghost use Rattle.lf_scalar.specs.Quoted.{quote_of};
ghost use Rattle.lf_scalar.specs.Splits.{split_of};
ghost use Rattle.lf_scalar.specs.Scalars.{value as scalar_value};
ghost use Rattle.lf_yaml.specs.reading.Trees.{between_of};
ghost use Rattle.lf_yaml.specs.views.Quoting.{style_of_quotes};

use crate::source::YamlSource;
use lf_base::Refusal;
use lf_base::bytes::before;
use lf_scalar::quotes::Quotes;
use lf_scalar::{Scalar, Style, read_scalar};

/// The style of a scalar between these quotes.
fn style_of(quote: Quotes) -> Style
    ensures { result ≡ style_of_quotes quote }
{
    match quote {
        Quotes::Single => Style::Single,
        Quotes::Double => Style::Double,
    }
}

/// The scalar between quotes that begins at an offset of a file. `inside` is what stands behind its quote on the line, where the closing quote is at a place.
pub fn quoted_scalar(
    source: YamlSource<'_>,
    at: u32,
    inside: &[u8],
    quote: Quotes,
    closing: usize,
) -> Result<Scalar, Refusal>
    requires quote { get_or source.bytes.now at 0 ≡ quote_of quote }
    requires inside { get_or source.bytes.now at 0 ∷ inside.now ≡ take (length inside.now + 1) (drop at source.bytes.now) }
    requires closing { closing < length inside.now }
    requires closes { get_or inside.now closing 0 ≡ quote_of quote }
    requires within { at + length inside.now + 1 ≤ length source.bytes.now }
    ensures { AnswersAs scalar_value result (between_of quote (cell (get_or source.entry.bytes.now at 0) at) (Some (split_of (at + 1) inside.now closing))) }
{
    let cut = before(source.bytes, at as usize + closing + 2);
    read_scalar(source.alloc, cut, at, -1, style_of(quote))
}
