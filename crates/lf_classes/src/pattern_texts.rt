//! The texts of patterns.
ghost use Rattle.std.specs.Prelude.{◌≡◌, [], None, IfOk};
ghost use Rattle.lf_pattern.specs.Scan.{alternatives_of};
ghost use Rattle.lf_semantics.specs.Mentions.{pattern_texts};

use crate::text_map::TextMap;
use lf_base::{Memory, Seq, Text};
use lf_pattern::{PatternError, plain_alternatives, samples};
use std::alloc::Global;
use std::marker::Model;

/// The texts of patterns. A pattern that isn't plain is read once for them, however often rules have it: contracts see those that were read so far.
#[derive(Drop)]
pub struct PatternTexts {
    samples: TextMap<Seq<Text>>,
}

impl Model for PatternTexts {
    ghost use Rattle.std.specs.Prelude.{List, ℕ};
    ghost use Rattle.lf_semantics.specs.Mentions.{pattern_texts};
    ghost use Rattle.lf_classes.specs.views.TextMaps.{HasValues};

    ghost Value = { List (List ℕ) };

    ghost view = { λ p. p.samples.texts };

    ghost invariant = { λ p. HasValues pattern_texts p.samples };
}

impl PatternTexts {
    /// None was read.
    pub fn new(alloc: Global) -> PatternTexts
        ensures { result ≡ [] }
    {
        PatternTexts {
            samples: TextMap::new(alloc),
        }
    }

    /// The alternatives of a plain pattern, and of any other its samples. What is no pattern has none.
    pub fn of(&mut self, alloc: Global, pattern: &Text) -> Result<Seq<Text>, Memory>
        ensures { IfOk result (λ texts. texts ≡ pattern_texts pattern.now) }
    {
        match plain_alternatives(alloc, pattern)? {
            Some(alternatives) => Ok(alternatives),
            None => self.samples_of(alloc, pattern),
        }
    }

    /// The samples of a pattern that isn't plain.
    fn samples_of(&mut self, alloc: Global, pattern: &Text) -> Result<Seq<Text>, Memory>
        requires { alternatives_of pattern.now ≡ None }
        ensures { IfOk result (λ texts. texts ≡ pattern_texts pattern.now) }
    {
        if let Some(known) = self.samples.get(pattern.as_str()) {
            return known.copy();
        }
        let found = samples_or_none(alloc, pattern)?;
        self.samples.add(alloc, pattern.as_str(), found.copy()?)?;
        Ok(found)
    }
}

/// The samples of a pattern that isn't plain. What is no pattern has none.
fn samples_or_none(alloc: Global, pattern: &Text) -> Result<Seq<Text>, Memory>
    requires { alternatives_of pattern.now ≡ None }
    ensures { IfOk result (λ texts. texts ≡ pattern_texts pattern.now) }
{
    match samples(alloc, pattern) {
        Ok(samples) => Ok(samples),
        Err(PatternError::BadPattern) => Ok(Seq::new(alloc)),
        Err(PatternError::Memory) => Err(Memory),
    }
}
