//! Patterns that `regex` reads. No other file calls it.
ghost use Rattle.std.specs.Prelude.{◌≡◌, ◌≤◌, ℕ, List, IfOk, IfErr, true, None, is_some, string_bytes};
ghost use Rattle.regex.specs.Patterns.{default_config};
ghost use Rattle.regex.specs.Strings.{regex_source, regex_config, IsReadFromSource};
ghost use Rattle.std.specs.List.{flat_map};
ghost use Rattle.regex.specs.Strings.{captures_span};
ghost use Rattle.lf_pattern.specs.views.Form.{FindsAs};
ghost use Rattle.lf_pattern.specs.views.Groups.{IsFew, group_of_match};
ghost use Rattle.lf_pattern.specs.Read.{anchored, finds, found_group, reading};
ghost use Rattle.lf_pattern.specs.reading.Expansion.{expanded, piece_text};
ghost use Rattle.lf_pattern.specs.reading.Replacement.{greatest};

use crate::error::PatternError;
use crate::replacement::ReplacementPiece;
use lf_base::{Memory, Text};
use regex::{Captures, Error, Matcher, Regex, RegexBuilder};
use std::alloc::{AllocError, Global};

/// About how many bytes a compiled pattern may take: far above every pattern in use, and little enough that a hostile pattern is refused before the system ends the
/// program.
const SIZE_LIMIT: usize = 64 << 20;

/// The text of a pattern that has to match the whole value.
fn anchored(alloc: Global, text: &Text) -> Result<String, AllocError>
    ensures { IfOk result (λ s. string_bytes s ≡ anchored text.now) }
{
    let mut source = String::from_str(alloc, "^(?:")?;
    source.push_str(text.as_str())?;
    source.push_str(")$")?;
    Ok(source)
}

/// What `regex` makes of a pattern that has to match the whole value.
pub fn compile(alloc: Global, text: &Text) -> Result<Regex, PatternError>
    ensures source { IfOk result (λ r. regex_source r ≡ anchored text.now) }
    ensures config { IfOk result (λ r. regex_config r ≡ default_config) }
    ensures read { IfOk result IsReadFromSource }
    ensures known { IfOk result (λ _. is_some (reading text.now) ≡ true) }
    ensures bad { IfErr result (λ e. e ≡ PatternError.BadPattern → reading text.now ≡ None) }
{
    let source = anchored(alloc, text)?;
    match RegexBuilder::new(source.as_str())
        .size_limit(SIZE_LIMIT)
        .build(alloc)
    {
        Ok(regex) => Ok(regex),
        Err(Error::Syntax(_)) => Err(PatternError::BadPattern),
        Err(_) => Err(PatternError::Memory),
    }
}

/// What searches values for the pattern.
pub fn matcher(alloc: Global, regex: &Regex) -> Result<Matcher<'_>, Memory>
    ensures { (p : List ℕ) → regex_source regex.now ≡ anchored p → regex_config regex.now ≡ default_config → IsReadFromSource regex.now → IfOk result (FindsAs p) }
{
    Ok(regex.matcher(alloc)?)
}

/// Whether the pattern has a match in the value.
pub fn finds(matcher: &mut Matcher<'_>, value: &str) -> bool
    ensures found { (p : List ℕ) → FindsAs p matcher.old → result ≡ finds p value.now }
    ensures same { (p : List ℕ) → FindsAs p matcher.old → FindsAs p matcher.new }
{
    matcher.is_match(value)
}

/// The expansion of a replacement's pieces where the pattern has a match in the value, or None.
pub fn expand(
    alloc: Global,
    regex: &Regex,
    value: &str,
    pieces: &[ReplacementPiece],
) -> Result<Option<Text>, Memory>
    ensures value { (p : List ℕ) → regex_source regex.now ≡ anchored p → regex_config regex.now ≡ default_config → IsReadFromSource regex.now → IfOk result (λ r. r ≡ expanded (finds p value.now) (found_group p value.now) pieces.now) }
    // No group has the greatest number or a greater one.
    ensures few { (p : List ℕ) → regex_source regex.now ≡ anchored p → regex_config regex.now ≡ default_config → IsReadFromSource regex.now → IfOk result (λ r. IsFew r (found_group p value.now)) }
{
    let mut matcher = regex.matcher(alloc)?;
    match matcher.captures(value) {
        None => Ok(None),
        Some(captures) => {
            let text = write_match(alloc, value, &captures, pieces)?;
            Ok(Some(text))
        }
    }
}

/// What pieces of a replacement stand for at a match in a value.
fn write_match<'h>(
    alloc: Global,
    value: &'h str,
    captures: &Captures<'_, 'h>,
    pieces: &[ReplacementPiece],
) -> Result<Text, Memory>
    ensures text { IfOk result (λ t. t ≡ flat_map (piece_text (group_of_match value.now captures.now)) pieces.now) }
    ensures few { IfOk result (λ _. (n : ℕ) → greatest ≤ n → captures_span captures.now n ≡ None) }
{
    let count = captures.len();
    let mut text = String::new(alloc);
    for piece in pieces {
        match piece {
            ReplacementPiece::Char(c) => text.push(*c)?,
            ReplacementPiece::Group(n) => text.push_str(group(value, captures, *n, count))?,
        }
    }
    Ok(Text::from_string(text))
}

/// The text of a group, of which there are so many, or nothing where it took no part. Group 0 is the whole value.
fn group<'h>(value: &'h str, captures: &Captures<'_, 'h>, n: usize, count: usize) -> &'h str
    requires { (k : ℕ) → count ≤ k → captures_span captures.now k ≡ None }
    ensures { result.now ≡ group_of_match value.now captures.now n }
{
    if n == 0 {
        return value;
    }
    if n >= count {
        return "";
    }
    match captures.get(n) {
        None => "",
        Some(found) => found.as_str(),
    }
}
