//! The call `patterns`: the calls of `lf_pattern` on a pattern, as JSON.
//!
//! A case tells in `expect` on which values the pattern is matched, and which replacements are expanded at which values; the answer repeats them with the answers of
//! the calls. A replacement that isn't plain is answered by `false`.

use crate::answer::no_memory;
use crate::case::TestCase;
use crate::timing::Stopwatch;
use crate::writer::Writer;
use anyhow::{Context, Result, anyhow};
use lf_base::{Seq, Text};
use lf_pattern::{Pattern, PatternError, is_plain_replacement, plain_alternatives, samples};
use serde_json::Value;
use std::alloc::Global;
use std::time::Duration;

/// Writes what the calls of `lf_pattern` answer on the pattern of a case.
pub fn answer(alloc: Global, case: &TestCase, out: &mut Writer) -> Result<()> {
    let text = Text::of(alloc, case.text()?).map_err(no_memory)?;
    out.open("{");
    write_plain(alloc, out, &text);
    match Pattern::new(alloc, &text) {
        Ok(pattern) => write_answers(alloc, out, pattern, &text, case)?,
        Err(error) => write_error(out, error),
    }
    out.close("}");
    Ok(())
}

/// Why a pattern isn't read.
fn write_error(out: &mut Writer, error: PatternError) {
    out.key("refusal");
    out.string(match error {
        PatternError::BadPattern => "BadPattern",
        PatternError::Memory => "Memory",
    });
}

/// The alternatives of a plain pattern, or null.
fn write_plain(alloc: Global, out: &mut Writer, text: &Text) {
    out.key("plain");
    match plain_alternatives(alloc, text) {
        Ok(Some(alternatives)) => write_texts(out, alternatives.as_slice()),
        Ok(None) => out.word("null"),
        Err(_) => out.fail(),
    }
}

/// What else is asked of a pattern that was read.
fn write_answers(
    alloc: Global,
    out: &mut Writer,
    mut pattern: Pattern,
    text: &Text,
    case: &TestCase,
) -> Result<()> {
    let samples = samples(alloc, text).map_err(not_read)?;
    out.key("samples");
    write_texts(out, samples.as_slice());
    out.key("matches");
    write_matches(alloc, out, &mut pattern, entries_of(case, "matches"))?;
    out.key("expansions");
    write_expansions(alloc, out, &mut pattern, entries_of(case, "expansions"))
}

/// The processor time of building patterns and matching each on values. The text holds the values, a line each, then an empty line, and then the patterns, a line each.
pub fn time(rt: &HostRuntime, text: &str) -> Result<Duration> {
    let (values, patterns) = text.split_once("\n\n").context("no empty line")?;
    let values = texts_of(rt.alloc(), values)?;
    let patterns = texts_of(rt.alloc(), patterns)?;
    let watch = Stopwatch::start(rt);
    let matched = match_all(rt.alloc(), patterns.as_slice(), values.as_slice());
    watch.taken(rt, matched)
}

/// Builds each pattern, and matches it on each value.
fn match_all(alloc: Global, patterns: &[Text], values: &[Text]) -> Result<()> {
    for text in patterns {
        let mut pattern = Pattern::new(alloc, text).map_err(not_read)?;
        for value in values {
            pattern.matches(alloc, value).map_err(no_memory)?;
        }
    }
    Ok(())
}

/// The lines of a text that aren't empty.
fn texts_of(alloc: Global, text: &str) -> Result<Seq<Text>> {
    let mut texts = Seq::new(alloc);
    for line in text.lines() {
        if !line.is_empty() {
            let line = Text::of(alloc, line).map_err(no_memory)?;
            texts.push(line).map_err(no_memory)?;
        }
    }
    Ok(texts)
}

/// The entries of a list of the answer that a case expects.
fn entries_of<'a>(case: &'a TestCase, key: &str) -> &'a [Value] {
    match case.expect().get(key).and_then(Value::as_array) {
        Some(entries) => entries.as_slice(),
        None => &[],
    }
}

/// The text at a place of an entry.
fn text_in(alloc: Global, entry: &Value, place: usize) -> Result<Text> {
    let text = entry
        .get(place)
        .and_then(Value::as_str)
        .context("no text in an entry")?;
    Text::of(alloc, text).map_err(no_memory)
}

/// On each value of the entries, whether the pattern matches it.
fn write_matches(
    alloc: Global,
    out: &mut Writer,
    pattern: &mut Pattern,
    entries: &[Value],
) -> Result<()> {
    out.open("[");
    for entry in entries {
        let value = text_in(alloc, entry, 0)?;
        write_match(alloc, out, pattern, &value);
    }
    out.close("]");
    Ok(())
}

/// A value, and whether the pattern matches it.
fn write_match(alloc: Global, out: &mut Writer, pattern: &mut Pattern, value: &Text) {
    out.open("[");
    out.string(value.as_str());
    match pattern.matches(alloc, value) {
        Ok(found) => out.truth(found),
        Err(_) => out.fail(),
    }
    out.close("]");
}

/// At each value of the entries, the expansion of the replacement beside it.
fn write_expansions(
    alloc: Global,
    out: &mut Writer,
    pattern: &mut Pattern,
    entries: &[Value],
) -> Result<()> {
    out.open("[");
    for entry in entries {
        let value = text_in(alloc, entry, 0)?;
        let replacement = text_in(alloc, entry, 1)?;
        out.open("[");
        out.string(value.as_str());
        out.string(replacement.as_str());
        write_expansion(alloc, out, pattern, &value, &replacement);
        out.close("]");
    }
    out.close("]");
    Ok(())
}

/// The expansion of a replacement at a value, or null where the pattern doesn't match it; false where the replacement isn't plain.
fn write_expansion(
    alloc: Global,
    out: &mut Writer,
    pattern: &mut Pattern,
    value: &Text,
    replacement: &Text,
) {
    match is_plain_replacement(alloc, replacement) {
        Ok(true) => match pattern.expand(alloc, value, replacement) {
            Ok(Some(text)) => out.string(text.as_str()),
            Ok(None) => out.word("null"),
            Err(_) => out.fail(),
        },
        Ok(false) => out.truth(false),
        Err(_) => out.fail(),
    }
}

/// A list of texts.
fn write_texts(out: &mut Writer, texts: &[Text]) {
    out.open("[");
    for text in texts {
        out.string(text.as_str());
    }
    out.close("]");
}

fn not_read(_: PatternError) -> anyhow::Error {
    anyhow!("a pattern isn't read")
}
