//! Text that is written part by part.

use anyhow::{Result, bail};
use lf_base::{Refusal, Span};
use serde_json::to_string;
use std::alloc::Global;

/// A text that is written part by part. It keeps its first failure, so that the parts needn't tell theirs.
///
/// `put` and `quote` write what they are given as it comes. The others write JSON without blanks, with the commas that it wants.
#[derive(Drop)]
pub struct Writer {
    text: String,
    /// Whether the next value of JSON comes first behind a bracket or a key.
    first: bool,
    failed: bool,
}

impl Writer {
    /// The empty text.
    pub fn new(alloc: Global) -> Writer {
        Writer {
            text: String::new(alloc),
            first: true,
            failed: false,
        }
    }

    /// The text, if nothing failed.
    pub fn text(&self) -> Result<&str> {
        if self.failed {
            bail!("out of memory");
        }
        Ok(self.text.as_str())
    }

    /// Gives the text up, for want of memory.
    pub fn fail(&mut self) {
        self.failed = true;
    }

    /// A part as it is.
    pub fn put(&mut self, part: &str) {
        if self.text.push_str(part).is_err() {
            self.failed = true;
        }
    }

    /// A text as a string of JSON.
    pub fn quote(&mut self, text: &str) {
        match to_string(*self.text.allocator(), &text) {
            Ok(quoted) => self.put(quoted.as_str()),
            Err(_) => self.failed = true,
        }
    }

    /// A bracket that opens a list or an object.
    pub fn open(&mut self, bracket: &str) {
        self.separate();
        self.put(bracket);
        self.first = true;
    }

    /// A bracket that closes a list or an object.
    pub fn close(&mut self, bracket: &str) {
        self.put(bracket);
        self.first = false;
    }

    /// A key of an object; its value comes next.
    pub fn key(&mut self, key: &str) {
        self.separate();
        self.quote(key);
        self.put(":");
        self.first = true;
    }

    /// A key and its string.
    pub fn member(&mut self, key: &str, text: &str) {
        self.key(key);
        self.string(text);
    }

    /// The key `span` and its span.
    pub fn span_member(&mut self, span: Span) {
        self.key("span");
        self.span(span);
    }

    /// A string.
    pub fn string(&mut self, text: &str) {
        self.separate();
        self.quote(text);
    }

    /// A value that is one word: true, false or null.
    pub fn word(&mut self, word: &str) {
        self.separate();
        self.put(word);
    }

    /// A truth value.
    pub fn truth(&mut self, truth: bool) {
        self.word(if truth { "true" } else { "false" });
    }

    /// A number.
    pub fn number(&mut self, number: u32) {
        self.separate();
        if write!(self.text, "{number}").is_err() {
            self.failed = true;
        }
    }

    /// A span: a list of its ends.
    pub fn span(&mut self, span: Span) {
        self.open("[");
        self.number(span.start);
        self.number(span.end);
        self.close("]");
    }

    /// A refusal: its kind and its span.
    pub fn refusal(&mut self, refusal: Refusal) {
        match refusal {
            Refusal::At { kind, span } => {
                self.open("{");
                self.member("refusal", kind.name());
                self.span_member(span);
                self.close("}");
            }
            Refusal::Memory => self.fail(),
        }
    }

    /// A comma, unless the next value comes first.
    fn separate(&mut self) {
        if !self.first {
            self.put(",");
        }
        self.first = false;
    }
}
