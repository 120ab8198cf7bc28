//! Patterns that were read.
ghost use Rattle.std.specs.Prelude.{◌≡◌, [], fold, IfOk, OnOk};
ghost use Rattle.lf_pattern.specs.Matching.{is_read};
ghost use Rattle.lf_classes.specs.views.TextSets.{with_text};

use crate::text_map::TextMap;
use lf_base::{Memory, Text};
use lf_pattern::{Pattern, PatternError};
use std::alloc::Global;
use std::marker::Model;

/// Patterns that were read, each once, and whether it could be. Contracts see their texts.
///
/// The rules of a file have few patterns, and the same ones in many rules. Who checks one expression after the other lends it to each, and has it learn the patterns of
/// an expression first.
#[derive(Drop)]
pub struct ReadPatterns {
    known: TextMap<bool>,
}

impl Model for ReadPatterns {
    ghost use Rattle.std.specs.Prelude.{List, ℕ};
    ghost use Rattle.lf_pattern.specs.Matching.{is_read};
    ghost use Rattle.lf_classes.specs.views.TextMaps.{HasValues};

    ghost Value = { List (List ℕ) };

    ghost view = { λ r. r.known.texts };

    ghost invariant = { λ r. HasValues is_read r.known };
}

impl ReadPatterns {
    /// None was read.
    pub fn new(alloc: Global) -> ReadPatterns
        ensures { result ≡ [] }
    {
        ReadPatterns {
            known: TextMap::new(alloc),
        }
    }

    /// Reads those of some patterns that weren't read.
    pub fn learn(&mut self, alloc: Global, patterns: &[&str]) -> Result<(), Memory>
        ensures { OnOk result (self.new ≡ fold (λ texts pattern. with_text texts pattern.now) self.old patterns.now) }
    {
        for pattern in patterns {
            self.learn_one(alloc, pattern)?;
        }
        Ok(())
    }

    /// Reads a pattern, unless it was read.
    fn learn_one(&mut self, alloc: Global, pattern: &str) -> Result<(), Memory>
        ensures { OnOk result (self.new ≡ with_text self.old pattern.now) }
    {
        let text = Text::of(alloc, pattern)?;
        let read = self.is_read(alloc, &text)?;
        self.known.add(alloc, pattern, read)
    }

    /// Whether a pattern can be read, which is tried where it isn't known.
    pub(crate) fn is_read(&self, alloc: Global, pattern: &Text) -> Result<bool, Memory>
        ensures { IfOk result (λ read. read ≡ is_read pattern.now) }
    {
        match self.known.get(pattern.as_str()) {
            Some(read) => Ok(*read),
            None => is_read(alloc, pattern),
        }
    }
}

/// Whether a pattern can be read.
fn is_read(alloc: Global, pattern: &Text) -> Result<bool, Memory>
    ensures { IfOk result (λ read. read ≡ is_read pattern.now) }
{
    match Pattern::new(alloc, pattern) {
        Ok(_) => Ok(true),
        Err(PatternError::BadPattern) => Ok(false),
        Err(PatternError::Memory) => Err(Memory),
    }
}
