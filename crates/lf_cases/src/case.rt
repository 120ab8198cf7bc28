//! A case: an input of a call and the answer that it is to give.

use anyhow::{Context, Result, anyhow};
use serde_json::Value;
use std::alloc::Global;
use std::str;

/// A case, as a JSON object tells it.
#[derive(Drop)]
pub struct TestCase {
    /// The bytes that the call is given.
    input: Vec<u8>,
    /// The whole object but for `spans`, with the keys that single calls want beside the input.
    object: Value,
    /// The spans, as JSON without blanks.
    spans: Option<String>,
}

/// What stands before the spans of a line, which come last. They nest as deep as expressions do, deeper than the reader of JSON goes, so they are kept as text.
const SPANS: &[u8] = b", \"spans\": ";

impl TestCase {
    /// Reads a case of a line. Its object has `name`, `expect`, and `input` or `input_hex`.
    pub fn read(alloc: Global, line: &[u8]) -> Result<TestCase> {
        let (object, spans) = parts_of(line);
        let object = object_of(alloc, object, spans.is_some())?;
        let input = input_of(alloc, &object)?;
        let spans = spans.map(|spans| spans_in(alloc, spans)).transpose()?;
        Ok(TestCase {
            input,
            object,
            spans,
        })
    }

    /// What the case shows.
    pub fn name(&self) -> &str {
        text_at(&self.object, "name").unwrap_or("")
    }

    /// The answer that the call is to give.
    pub fn expect(&self) -> &Value {
        self.object.get("expect").unwrap_or(&self.object)
    }

    /// The text at a key that the call wants beside the input.
    pub fn text_at(&self, key: &str) -> Option<&str> {
        text_at(&self.object, key)
    }

    /// The whole number at a key that the call wants beside the input.
    pub fn number_at(&self, key: &str) -> Option<i64> {
        self.object.get(key).and_then(Value::as_i64)
    }

    /// The spans that the answer is to have, where the case says them.
    pub fn spans(&self) -> Option<&str> {
        self.spans.as_ref().map(String::as_str)
    }

    /// The input, for a call that is given bytes.
    pub fn bytes(&self) -> &[u8] {
        self.input.as_slice()
    }

    /// The input, for a call that is given a text.
    pub fn text(&self) -> Result<&str> {
        str::from_utf8(self.input.as_slice()).map_err(|_| anyhow!("the input isn't UTF-8"))
    }
}

/// What stands before the spans of a line, or the whole line where it has none, and what stands behind the key of the spans.
fn parts_of(line: &[u8]) -> (&[u8], Option<&[u8]>) {
    for at in 0..line.len() {
        if let Some(spans) = line[at..].strip_prefix(SPANS) {
            return (&line[..at], Some(spans));
        }
    }
    (line, None)
}

/// The object of a line, from which its end was cut with its spans, or none. It has a name and an answer.
fn object_of(alloc: Global, text: &[u8], is_cut: bool) -> Result<Value> {
    let object = if is_cut {
        let mut text = Vec::from_slice(alloc, text)?;
        text.push(b'}')?;
        Value::from_slice(alloc, text.as_slice())?
    } else {
        Value::from_slice(alloc, text)?
    };
    text_at(&object, "name").context("no name")?;
    object.get("expect").context("no expect")?;
    Ok(object)
}

/// The spans without blanks, of a line's end that closes the object behind them.
fn spans_in(alloc: Global, end: &[u8]) -> Result<String> {
    let spans = end.strip_suffix(b"}").context("no end")?;
    let mut text = String::new(alloc);
    for byte in spans {
        if *byte != b' ' {
            text.push(char::from(*byte))?;
        }
    }
    Ok(text)
}

/// The text at a key of an object.
fn text_at<'a>(object: &'a Value, key: &str) -> Option<&'a str> {
    object.get(key).and_then(Value::as_str)
}

/// The bytes of `input`, or those that `input_hex` tells in hexadecimal.
fn input_of(alloc: Global, object: &Value) -> Result<Vec<u8>> {
    match text_at(object, "input") {
        Some(text) => Ok(Vec::from_slice(alloc, text.as_bytes())?),
        None => {
            let digits = text_at(object, "input_hex").context("no input")?;
            Ok(hex::decode(alloc, digits)?)
        }
    }
}
