//! Patterns that are tried on values.
ghost use Rattle.std.specs.Prelude.{◌≡◌, ◌↔◌, ℕ, List, Option, IfOk, IfErr, IsTrue, None};
ghost use Rattle.std.specs.List.{list_any};
ghost use Rattle.std.specs.Str.{bytes_eq};
ghost use Rattle.lf_pattern.specs.Matching.{IsRead, Matches, matches};
ghost use Rattle.lf_pattern.specs.reading.Expansion.{expanded, expansion, plain_group};
ghost use Rattle.lf_pattern.specs.Replacement.{HasPieces, IsExpansion, IsPlainReplacement};

use crate::compiled::{compile, expand};
use crate::error::PatternError;
use crate::plain::{in_pair, plain_alternatives};
use crate::probe::Probe;
use crate::replacement::{ReplacementPiece, pieces};
use crate::writing::write_plain;
use lf_base::{Memory, Seq, Text};
use regex::Regex;
use std::alloc::Global;
use std::marker::Model;

/// How a pattern is matched.
#[derive(Drop)]
pub enum Form {
    /// A plain pattern, by its alternatives. `pair` says that it stands in a pair of parentheses that is a group.
    Plain { alternatives: Seq<Text>, pair: bool },
    /// Any other, by `regex`.
    Other(Regex),
}

/// A pattern that was read, for any number of values. Contracts see its text.
#[derive(Drop)]
pub struct Pattern {
    text: Text,
    form: Form,
}

impl Model for Pattern {
    ghost use Rattle.std.specs.Prelude.{List, ℕ};
    ghost use Rattle.lf_pattern.specs.views.Form.{IsFormOf};

    ghost Value = { List ℕ };

    ghost view = { λ p. p.text };

    ghost invariant = { λ p. IsFormOf p.text p.form };
}

impl Pattern {
    /// Reads a pattern. `BadPattern` comes only of a text that isn't plain and that `regex` refuses for its syntax, when it stands between `^(?:` and `)$`.
    pub fn new(alloc: Global, text: &Text) -> Result<Pattern, PatternError>
        ensures text { IfOk result (λ p. p ≡ text.now) }
        // A pattern that is given is one, and BadPattern is given only where it is none.
        ensures read { IfOk result (λ _. IsRead text.now) }
        ensures bad { IfErr result (λ e. e ≡ PatternError.BadPattern → IsRead text.now → ⊥) }
    {
        if let Some(alternatives) = plain_alternatives(alloc, text)? {
            let pair = in_pair(alloc, text)?;
            return Ok(Pattern {
                text: text.copy()?,
                form: Form::Plain { alternatives, pair },
            });
        }
        let regex = compile(alloc, text)?;
        Ok(Pattern {
            text: text.copy()?,
            form: Form::Other(regex),
        })
    }

    /// Whether the pattern matches the value: a plain one where the value is one of its alternatives, and any other where `regex` finds a match of `^(?:p)$` in it.
    /// That is the whole value, unless the pattern breaks out of the parentheses, as `a)|(b` does.
    pub fn matches(&mut self, alloc: Global, text: &Text) -> Result<bool, Memory>
        ensures value { IfOk result (λ found. found ≡ matches self.old text.now) }
        ensures meaning { IfOk result (λ found. IsTrue found ↔ Matches self.old text.now) }
        ensures same { self.new ≡ self.old }
    {
        let mut probe = self.probe(alloc)?;
        Ok(probe.matches(text))
    }

    /// The pattern, to be tried on one value after another: what `regex` learns of it at one value is kept for the next.
    pub fn probe(&self, alloc: Global) -> Result<Probe<'_>, Memory>
        ensures { IfOk result (λ probe. probe ≡ self.now) }
    {
        Probe::new(alloc, &self.text, &self.form)
    }

    /// What a plain replacement expands to where the pattern matches the value, or None where it doesn't. `$$` gives `$`, and `$n` and `${n}` give the
    /// text of group n, or nothing where there is no such group or it took no part; group 0 is the whole value.
    pub fn expand(
        &mut self,
        alloc: Global,
        value: &Text,
        replacement: &Text,
    ) -> Result<Option<Text>, Memory>
        requires plain { IsPlainReplacement replacement.now }
        ensures value { (ps : List ReplacementPiece) → HasPieces replacement.now ps → IfOk result (λ r. r ≡ expansion self.old value.now ps) }
        ensures meaning { (ps : List ReplacementPiece) → HasPieces replacement.now ps → IfOk result (IsExpansion self.old value.now ps) }
        // No other answer is an expansion.
        ensures only { (ps : List ReplacementPiece) (answer : Option (List ℕ)) → HasPieces replacement.now ps → IsExpansion self.old value.now ps answer → IfOk result (λ r. r ≡ answer) }
        ensures none { IfOk result (λ r. (r ≡ None) ↔ (Matches self.old value.now → ⊥)) }
        ensures same { self.new ≡ self.old }
    {
        let pieces = pieces(alloc, replacement)?;
        match &self.form {
            Form::Plain { alternatives, pair } => {
                expand_plain(alloc, alternatives, *pair, value, pieces.as_slice())
            }
            Form::Other(regex) => expand(alloc, regex, value.as_str(), pieces.as_slice()),
        }
    }
}

/// The expansion of a replacement's pieces where the value is an alternative of a plain pattern, or None.
fn expand_plain(
    alloc: Global,
    alternatives: &Seq<Text>,
    pair: bool,
    value: &Text,
    pieces: &[ReplacementPiece],
) -> Result<Option<Text>, Memory>
    ensures { IfOk result (λ r. r ≡ expanded (list_any (λ a. bytes_eq a value.now) alternatives.now) (plain_group pair value.now) pieces.now) }
{
    if !contains(alternatives, value) {
        return Ok(None);
    }
    let text = write_plain(alloc, value.as_str(), pair, pieces)?;
    Ok(Some(text))
}

/// Whether one of the texts is the value.
pub fn contains(alternatives: &Seq<Text>, value: &Text) -> bool
    ensures { result ≡ list_any (λ a. bytes_eq a value.now) alternatives.now }
{
    alternatives
        .as_slice()
        .iter()
        .any(|a| a.as_str() == value.as_str())
}
