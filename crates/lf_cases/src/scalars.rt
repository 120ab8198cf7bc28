//! The call `scalars`: the scalar of a style at an offset of a text, or its refusal, as JSON.
ghost use Rattle.std.specs.Prelude.{◌≤◌, ◌^◌, length, OnOk};
ghost use Rattle.lf_scalar.specs.Scalars.{BeginsAt};

use crate::answer::refused;
use crate::case::TestCase;
use crate::lengths::ask_length;
use crate::timing::Stopwatch;
use crate::writer::Writer;
use anyhow::{Context, Result, bail};
use lf_scalar::{Scalar, Style, begins_scalar, read_scalar};
use std::alloc::Global;
use std::time::Duration;

/// Writes what `read_scalar` answers on the text of a case, at its `at`, with its `indent` and `style`.
pub fn answer(alloc: Global, case: &TestCase, out: &mut Writer) -> Result<()> {
    let style = case
        .text_at("style")
        .and_then(style_of)
        .context("no style")?;
    let at = case
        .number_at("at")
        .and_then(|at| u32::try_from(at).ok())
        .context("no at")?;
    let indent = case
        .number_at("indent")
        .and_then(|indent| i32::try_from(indent).ok())
        .context("no indent")?;
    let bytes = case.text()?.as_bytes();
    ask(bytes, at, style)?;
    match read_scalar(alloc, bytes, at, indent, style) {
        Ok(scalar) => write_scalar(out, "text", &scalar),
        Err(refusal) => out.refusal(refusal),
    }
    Ok(())
}

/// The processor time of `read_scalar` on the scalar that a text begins with, as a value at the root. Its first byte tells the style.
pub fn time(rt: &HostRuntime, text: &str) -> Result<Duration> {
    let bytes = text.as_bytes();
    let style = first_style(bytes);
    ask(bytes, 0, style)?;
    let watch = Stopwatch::start(rt);
    let scalar = read_scalar(rt.alloc(), bytes, 0, -1, style);
    watch.taken(rt, scalar.map_err(refused))
}

/// Asks what `read_scalar` asks: that a scalar of the style begins there, in a text that isn't too long.
fn ask(bytes: &[u8], at: u32, style: Style) -> Result<()>
    ensures room { OnOk result (length bytes.now ≤ 2 ^ 31) }
    ensures begins { OnOk result (BeginsAt bytes.now at style) }
{
    ask_length(bytes)?;
    if !begins_scalar(bytes, at, style) {
        bail!("no scalar of the style begins there");
    }
    Ok(())
}

/// The style that a word names.
fn style_of(word: &str) -> Option<Style> {
    match word {
        "plain" => Some(Style::Plain),
        "single" => Some(Style::Single),
        "double" => Some(Style::Double),
        "literal" => Some(Style::Literal),
        "folded" => Some(Style::Folded),
        _ => None,
    }
}

/// The style of the scalar that some bytes begin with.
fn first_style(bytes: &[u8]) -> Style {
    match bytes {
        [b'\'', ..] => Style::Single,
        [b'"', ..] => Style::Double,
        [b'|', ..] => Style::Literal,
        [b'>', ..] => Style::Folded,
        _ => Style::Plain,
    }
}

/// A scalar's text at a key, its offsets and its span.
pub fn write_scalar(out: &mut Writer, key: &str, scalar: &Scalar) {
    out.open("{");
    out.member(key, scalar.text.as_str());
    out.key("from");
    write_offsets(out, scalar.from.as_slice());
    out.span_member(scalar.span);
    out.close("}");
}

/// A list of offsets.
fn write_offsets(out: &mut Writer, offsets: &[u32]) {
    out.open("[");
    for offset in offsets {
        out.number(*offset);
    }
    out.close("]");
}
