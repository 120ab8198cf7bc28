//! Scalars that are a part of one line as it stands.
ghost use Rattle.std.specs.Prelude.{◌≡◌, ◌+◌, ◌<◌, ◌≤◌, ◌^◌, length, Ok, IfOk, IfErr};
ghost use Rattle.std.specs.Str.{IsUtf8};
ghost use Rattle.lf_base.specs.Answers.{AnswersAs};
ghost use Rattle.lf_scalar.specs.Cells.{cells, made};
ghost use Rattle.lf_scalar.specs.Scalars.{value as scalar_value};
ghost use Rattle.lf_base.specs.declared.refusal.Refusal.TheVariants as refusal_of;
ghost use Rattle.lf_scalar.specs.views.Ascending.{offsets_from};

use lf_base::{Refusal, Seq, Span, Text};
use lf_scalar::Scalar;
use lf_scalar::builder::push_offsets;
use std::alloc::Global;

/// The offsets of so many bytes from one on, and of their end.
pub fn offsets(alloc: Global, at: u32, len: usize) -> Result<Seq<u32>, Refusal>
    requires room { at + len ≤ 2 ^ 31 }
    ensures offsets { IfOk result (λ s. s ≡ offsets_from at (len + 1)) }
    ensures memory { IfErr result (λ e. e ≡ refusal_of.Memory) }
{
    let mut from = Vec::new(alloc);
    match push_offsets(&mut from, at, len + 1) {
        Ok(()) => Ok(Seq::from_vec(from)),
        Err(_) => Err(Refusal::Memory),
    }
}

/// Bytes that are UTF-8, as a text.
fn as_text(bytes: &[u8]) -> &str
    requires { IsUtf8 bytes.now }
    ensures { result.now ≡ bytes.now }
{
    match str::from_utf8(bytes) {
        Ok(text) => text,
        Err(_) => unreachable!(),
    }
}

/// The scalar whose text is a part of one line as it stands, the first byte at an offset. The text is UTF-8.
pub fn slice_scalar(alloc: Global, text: &[u8], at: u32, span: Span) -> Result<Scalar, Refusal>
    requires utf8 { IsUtf8 text.now }
    requires room { at + length text.now ≤ 2 ^ 31 }
    requires start { span.start ≤ at }
    requires end { at + length text.now ≤ span.end }
    ensures { AnswersAs scalar_value result (Ok (made (cells at text.now) (at + length text.now) span)) }
{
    let from = match offsets(alloc, at, text.len()) {
        Ok(from) => from,
        Err(_) => return Err(Refusal::Memory),
    };
    match Text::of(alloc, as_text(text)) {
        Ok(text) => Ok(Scalar { text, from, span }),
        Err(_) => Err(Refusal::Memory),
    }
}
