//! A text that is being made, with the source offset of each of its bytes. It is public for the crates of this repository that fold scalars of their own.
ghost use Rattle.std.specs.Prelude.{◌≡◌, ◌+◌, ◌<◌, ◌^◌, ◌∷◌, ◌++◌, [], length, take, min, IfOk, Ok, OnOk, OnErr};
ghost use Rattle.std.specs.Str.{IsUtf8};
ghost use Rattle.lf_base.specs.Answers.{AnswersAs};
ghost use Rattle.lf_scalar.specs.Cells.{cell, cells, bytes_of, offsets_of, end_of, made};
ghost use Rattle.lf_scalar.specs.Folding.{feeds, fold};
ghost use Rattle.lf_scalar.specs.Offsets.{AreOffsets};
ghost use Rattle.lf_scalar.specs.Quoted.{char_cells};
ghost use Rattle.lf_scalar.specs.views.Ascending.{offsets_from};
ghost use Rattle.lf_scalar.specs.Scalars.{value};

use crate::scalar::Scalar;
use lf_base::{Memory, Refusal, Seq, Span, Text};
use std::alloc::Global;
use std::marker::Model;

/// Bytes, and for each the source offset of what gave it. Contracts see it as a list of cells.
#[derive(Debug, Drop)]
pub struct ScalarBuilder {
    text: Vec<u8>,
    from: Vec<u32>,
}

impl Model for ScalarBuilder {
    ghost use Rattle.std.specs.Prelude.{◌≡◌, List, length};
    ghost use Rattle.lf_scalar.specs.Cells.{Cell, zipped};

    ghost Value = { List Cell };

    ghost view = { λ d. zipped d.text.items d.from.items };

    ghost invariant = { λ d. length d.text.items ≡ length d.from.items };
}

impl ScalarBuilder {
    /// No byte yet.
    pub fn new(alloc: Global) -> ScalarBuilder
        ensures { result ≡ [] }
    {
        ScalarBuilder {
            text: Vec::new(alloc),
            from: Vec::new(alloc),
        }
    }

    /// No byte yet, with room for so many.
    pub fn with_room(alloc: Global, count: usize) -> Result<ScalarBuilder, Memory>
        requires { count < 2 ^ 32 }
        ensures { IfOk result (λ builder. builder ≡ []) }
    {
        let text = Vec::with_capacity(alloc, count)?;
        // The offset of the text's end stands behind those of its bytes.
        let from = Vec::with_capacity(alloc, count + 1)?;
        Ok(ScalarBuilder { text, from })
    }

    /// How many bytes there are.
    pub fn len(&self) -> usize
        ensures { result ≡ length self.now }
    {
        self.text.as_slice().len()
    }

    /// The bytes.
    pub fn bytes(&self) -> &[u8]
        ensures { result.now ≡ bytes_of self.now }
    {
        self.text.as_slice()
    }

    /// Where the source of the last byte ends, or an offset where there is no byte, and at most another offset.
    pub fn end(&self, none: u32, most: u32) -> u32
        ensures { result ≡ min (end_of none self.now) most }
    {
        match self.from.as_slice().last() {
            Some(at) => { if *at < most { *at + 1 } else { most } }
            None => none.min(most),
        }
    }

    /// Appends a byte that something at an offset gave.
    pub fn push(&mut self, byte: u8, at: u32) -> Result<(), Memory>
        ensures ok { OnOk result (self.new ≡ self.old ++ cell byte at ∷ []) }
        ensures err { OnErr result (self.new ≡ self.old) }
    {
        self.from.push(at)?;
        match self.text.push(byte) {
            Ok(()) => Ok(()),
            Err(_) => {
                self.from.pop();
                Err(Memory)
            }
        }
    }

    /// Appends bytes of the source, the first of them at an offset.
    pub fn copy(&mut self, bytes: &[u8], at: u32) -> Result<(), Memory>
        requires { at + length bytes.now < 2 ^ 32 }
        ensures ok { OnOk result (self.new ≡ self.old ++ cells at bytes.now) }
        ensures err { OnErr result (self.new ≡ self.old) }
    {
        push_offsets(&mut self.from, at, bytes.len())?;
        match self.text.extend_from_slice(bytes) {
            Ok(()) => Ok(()),
            Err(_) => {
                self.from.truncate(self.text.len());
                Err(Memory)
            }
        }
    }

    /// The scalar of this text, which is UTF-8, with the offset of its end and its place.
    pub fn into_scalar(self, end: u32, span: Span) -> Result<Scalar, Refusal>
        requires utf8 { IsUtf8 (bytes_of self) }
        requires offsets { AreOffsets (bytes_of self) (offsets_of self ++ end ∷ []) span }
        ensures { AnswersAs value result (Ok (made self end span)) }
    {
        let (text, mut from) = self.into_parts();
        let alloc = *from.allocator();
        match from.push(end) {
            Ok(()) => {}
            Err(_) => return Err(Refusal::Memory),
        }
        match String::from_utf8(text) {
            Ok(text) => Ok(Scalar {
                text: Text::shortest(alloc, text),
                from: Seq::from_vec(from),
                span,
            }),
            Err(_) => Err(Refusal::Memory),
        }
    }

    /// The bytes and their offsets.
    fn into_parts(self) -> (Vec<u8>, Vec<u32>)
        ensures { (result.0.items ≡ bytes_of self) × (result.1.items ≡ offsets_of self) }
    {
        (self.text, self.from)
    }

    /// Keeps the first bytes alone.
    pub fn truncate(&mut self, len: usize)
        ensures { self.new ≡ take len self.old }
    {
        self.text.truncate(len);
        self.from.truncate(len);
    }
}

/// Appends so many offsets, one after the other, and makes room for one more.
pub fn push_offsets(from: &mut Vec<u32>, at: u32, count: usize) -> Result<(), Memory>
    requires { at + count < 2 ^ 32 }
    ensures ok { OnOk result (from.new.items ≡ from.old.items ++ offsets_from at count) }
    ensures err { OnErr result (from.new.items ≡ from.old.items) }
{
    from.reserve(count + 1)?;
    for i in 0..count {
        from.push_reserved(at + i as u32);
    }
    Ok(())
}

/// Appends so many line feeds, each with the offset of one line break.
pub fn feed(builder: &mut ScalarBuilder, count: usize, at: u32) -> Result<(), Memory>
    ensures { OnOk result (builder.new ≡ builder.old ++ feeds count at) }
{
    for _ in 0..count {
        builder.push(b'\n', at)?;
    }
    Ok(())
}

/// Appends what a line break with so many blank lines behind it becomes.
pub fn fold_break(builder: &mut ScalarBuilder, count: usize, at: u32) -> Result<(), Memory>
    ensures { OnOk result (builder.new ≡ builder.old ++ fold at count) }
{
    if count == 0 {
        builder.push(b' ', at)
    } else {
        feed(builder, count, at)
    }
}

/// Appends a character that an escape at an offset gave.
pub fn push_char(builder: &mut ScalarBuilder, c: char, at: u32) -> Result<(), Memory>
    ensures { OnOk result (builder.new ≡ builder.old ++ char_cells at c) }
{
    let mut buffer = [0; 4];
    let encoded = c.encode_utf8(&mut buffer);
    for byte in encoded.as_bytes() {
        builder.push(*byte, at)?;
    }
    Ok(())
}
