//! Plain scalars that are folded from several lines.
ghost use Rattle.std.specs.Prelude.{ℕ, ◌≤◌, ◌^◌, ◌∷◌, ◌++◌, [], Ok};
ghost use Rattle.std.specs.Str.{IsUtf8};
ghost use Rattle.lf_base.specs.Answers.{AnswersAs};
ghost use Rattle.lf_scalar.specs.Cells.{cell, bytes_of, offsets_of, end_of};
ghost use Rattle.lf_scalar.specs.Offsets.{AreOffsets};
ghost use Rattle.lf_scalar.specs.Plain.{value_of};
ghost use Rattle.lf_scalar.specs.Scalars.{value as scalar_value};

use crate::plain::slice_scalar;
use lf_base::{Refusal, Span};
use lf_scalar::Scalar;
use lf_scalar::builder::ScalarBuilder;
use lf_scalar::null_text::is_null_text;
use std::alloc::Global;

/// The plain scalar whose lines gave a text, of which `null`, `Null`, `NULL` and `~` are the empty text. It begins at an offset and ends at most at another.
pub fn plain_scalar(
    alloc: Global,
    builder: ScalarBuilder,
    at: u32,
    most: u32,
) -> Result<Scalar, Refusal>
    requires within { end_of at builder ≤ most }
    requires utf8 { IsUtf8 (bytes_of builder) }
    requires room { most ≤ 2 ^ 31 }
    requires order { at ≤ end_of at builder }
    requires offsets { AreOffsets (bytes_of builder) (offsets_of builder ++ end_of at builder ∷ []) (record { start = at; end = end_of at builder }) }
    ensures { (byte : ℕ) → AnswersAs scalar_value result (Ok (value_of (cell byte at) builder)) }
{
    let end = builder.end(at, most);
    let span = Span { start: at, end };
    if is_null_text(builder.bytes()) {
        slice_scalar(alloc, &[], end, span)
    } else {
        builder.into_scalar(end, span)
    }
}
