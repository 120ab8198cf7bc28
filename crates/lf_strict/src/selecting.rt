//! The samples that a selector gives.
ghost use Rattle.std.specs.Prelude.{◌≡◌, ◌++◌, ◌&&◌, IfOk, IfSome, Some};
ghost use Rattle.std.specs.List.{filter};
ghost use Rattle.std.specs.Str.{bytes_eq};
ghost use Rattle.lf_pattern.specs.Matching.{is_read, matches};
ghost use Rattle.lf_semantics.specs.Texts.{value_of};
ghost use Rattle.lf_witness.specs.Ascending.{IsAscending};
ghost use Rattle.lf_witness.specs.Strict.{AreSelected, IsSet};
ghost use Rattle.lf_witness.specs.StrictRuns.{InOrder};
ghost use Rattle.lf_strict.specs.views.Selected.{as_wanted, has_name, passes_by, passing};

use crate::lending::{Held, Samples};
use lf_ast::{LabelSet, MatchOp, Matcher};
use lf_base::{Memory, Text};
use lf_candidates::known_pass;
use lf_classes::Universe;
use lf_nodes::takes_pattern;
use lf_pattern::{Pattern, PatternError};
use std::alloc::Global;

/// The samples that have the name and pass the matchers, in ascending order.
pub fn select<'a>(
    alloc: Global,
    universe: Option<&Universe>,
    stored: Samples<'a>,
    name: &Option<Text>,
    matchers: &[Matcher],
) -> Result<Samples<'a>, Memory>
    requires { IsAscending stored }
    ensures { IfOk result (λ set. InOrder (IsSet (AreSelected stored.entry name.now matchers.now)) (Some set)) }
{
    let kept = only_named(stored.into_vec(alloc)?, name);
    passing_each(alloc, universe, Samples::from_vec(kept), matchers)
}

/// The samples of this name, or all of them. The others are taken out.
fn only_named(mut samples: Vec<LabelSet>, name: &Option<Text>) -> Vec<LabelSet>
    ensures { result.items ≡ filter (has_name name.now) samples.items }
{
    samples.retain(|sample| has_name(name, sample));
    samples
}

/// Those of the samples that pass each matcher.
pub fn passing_each<'a>(
    alloc: Global,
    universe: Option<&Universe>,
    mut kept: Samples<'a>,
    matchers: &[Matcher],
) -> Result<Samples<'a>, Memory>
    ensures { IfOk result (λ passed. passed ≡ passing matchers.now kept.entry) }
{
    for matcher in matchers {
        kept = passing(alloc, universe, matcher, kept)?;
    }
    Ok(kept)
}

/// The samples that pass a matcher. One that is lent stays where it is, unless a pattern is read for it.
fn passing<'a>(
    alloc: Global,
    universe: Option<&Universe>,
    matcher: &Matcher,
    samples: Samples<'a>,
) -> Result<Samples<'a>, Memory>
    ensures { IfOk result (λ kept. kept ≡ filter (passes_by matcher.now) samples.entry) }
{
    if let Held::Lent { sample } = &samples.held {
        match known_to_pass(universe, matcher, sample) {
            Some(true) => return Ok(samples),
            Some(false) => return Ok(Samples::new()),
            None => {}
        }
    }
    let kept = passing_listed(alloc, universe, matcher, samples.into_vec(alloc)?)?;
    Ok(Samples::from_vec(kept))
}

/// Whether a sample passes a matcher, where it is known without reading a pattern.
fn known_to_pass(universe: Option<&Universe>, matcher: &Matcher, sample: &LabelSet) -> Option<bool>
    ensures { IfSome result (λ told. told ≡ passes_by matcher.now sample.now) }
{
    match matcher.op {
        MatchOp::Equal => Some(is_compared(matcher, sample, true)),
        MatchOp::NotEqual => Some(is_compared(matcher, sample, false)),
        _ => known_by(universe, matcher, sample),
    }
}

/// Whether a sample passes a matcher, if there is a universe that knows it of its text.
fn known_by(universe: Option<&Universe>, matcher: &Matcher, sample: &LabelSet) -> Option<bool>
    ensures { IfSome result (λ told. told ≡ passes_by matcher.now sample.now) }
{
    match universe {
        Some(universe) => known_pass(universe, matcher, text_of(sample, matcher.label.as_str())),
        None => None,
    }
}

/// The samples that pass a matcher. Where a universe knows of the text of each whether it does, no pattern is read.
fn passing_listed(
    alloc: Global,
    universe: Option<&Universe>,
    matcher: &Matcher,
    samples: Vec<LabelSet>,
) -> Result<Vec<LabelSet>, Memory>
    ensures { IfOk result (λ kept. kept.items ≡ filter (passes_by matcher.now) samples.items) }
{
    match known_passing(alloc, universe, matcher, samples.as_slice())? {
        Some(kept) => Ok(kept),
        None => passing_by_operator(alloc, matcher, samples),
    }
}

/// The samples that pass a matcher with a pattern, if a universe knows it of the text of each.
fn known_passing(
    alloc: Global,
    universe: Option<&Universe>,
    matcher: &Matcher,
    samples: &[LabelSet],
) -> Result<Option<Vec<LabelSet>>, Memory>
    ensures { IfOk result (λ found. IfSome found (λ kept. kept.items ≡ filter (passes_by matcher.now) samples.now)) }
{
    match universe {
        Some(universe) => {
            if takes_pattern(matcher.op) {
                passing_in(alloc, universe, matcher, samples)
            } else {
                Ok(None)
            }
        }
        None => Ok(None),
    }
}

/// The samples that pass a matcher, if the universe knows it of the text of each.
fn passing_in(
    alloc: Global,
    universe: &Universe,
    matcher: &Matcher,
    samples: &[LabelSet],
) -> Result<Option<Vec<LabelSet>>, Memory>
    ensures { IfOk result (λ found. IfSome found (λ kept. kept.items ≡ filter (passes_by matcher.now) samples.now)) }
{
    let mut kept = Vec::new(alloc);
    for sample in samples {
        match known_pass(universe, matcher, text_of(sample, matcher.label.as_str())) {
            Some(true) => kept.push(sample.copy()?)?,
            Some(false) => {}
            None => return Ok(None),
        }
    }
    Ok(Some(kept))
}

/// The samples that pass a matcher, by its operator. A pattern is read.
fn passing_by_operator(
    alloc: Global,
    matcher: &Matcher,
    samples: Vec<LabelSet>,
) -> Result<Vec<LabelSet>, Memory>
    ensures { IfOk result (λ kept. kept.items ≡ filter (passes_by matcher.now) samples.items) }
{
    match matcher.op {
        MatchOp::Equal => Ok(compared(matcher, samples, true)),
        MatchOp::NotEqual => Ok(compared(matcher, samples, false)),
        MatchOp::Matches => tried(alloc, matcher, samples.as_slice(), true),
        MatchOp::NotMatches => tried(alloc, matcher, samples.as_slice(), false),
    }
}

/// The samples of this name, or all of them.
pub fn named<'a>(
    alloc: Global,
    samples: &'a [LabelSet],
    name: &Option<Text>,
) -> Result<Samples<'a>, Memory>
    ensures { IfOk result (λ kept. kept ≡ filter (has_name name.now) samples.entry.now) }
{
    with_named(alloc, Samples::new(), samples, name)
}

/// Some samples, and behind them those of this name, or all of them.
pub fn with_named<'a>(
    alloc: Global,
    mut kept: Samples<'a>,
    samples: &'a [LabelSet],
    name: &Option<Text>,
) -> Result<Samples<'a>, Memory>
    ensures { IfOk result (λ all. all ≡ kept.entry ++ filter (has_name name.now) samples.entry.now) }
{
    for sample in samples {
        if has_name(name, sample) {
            kept = kept.and(alloc, sample)?;
        }
    }
    Ok(kept)
}

/// Whether a sample has this name, if there is one.
pub fn has_name(name: &Option<Text>, sample: &LabelSet) -> bool
    ensures { result ≡ has_name name.now sample.now }
{
    match name {
        None => true,
        Some(name) => text_of(sample, "__name__") == name.as_str(),
    }
}

/// The text of a label, and the empty text where it is absent.
pub fn text_of<'a>(sample: &'a LabelSet, label: &str) -> &'a str
    ensures { result.now ≡ value_of sample.entry.now label.now }
{
    match sample.get(label) {
        Some(text) => text.as_str(),
        None => "",
    }
}

/// The samples whose text is the matcher's, or whose text isn't. The others are taken out.
fn compared(matcher: &Matcher, mut samples: Vec<LabelSet>, wanted: bool) -> Vec<LabelSet>
    ensures { result.items ≡ filter (λ s. as_wanted wanted (bytes_eq (value_of s matcher.now.label) matcher.now.value)) samples.items }
{
    samples.retain(|sample| is_compared(matcher, sample, wanted));
    samples
}

/// Whether the text of a sample is the matcher's, or isn't.
fn is_compared(matcher: &Matcher, sample: &LabelSet, wanted: bool) -> bool
    ensures { result ≡ as_wanted wanted (bytes_eq (value_of sample.now matcher.now.label) matcher.now.value) }
{
    as_wanted(
        wanted,
        text_of(sample, matcher.label.as_str()) == matcher.value.as_str(),
    )
}

/// An answer as it is, or turned round where the other is wanted.
fn as_wanted(wanted: bool, found: bool) -> bool
    ensures { result ≡ as_wanted wanted found }
{
    if wanted { found } else { !found }
}

/// The samples whose text is matched by the matcher's pattern, or isn't. What is no pattern passes nothing. The pattern is read once.
fn tried(
    alloc: Global,
    matcher: &Matcher,
    samples: &[LabelSet],
    wanted: bool,
) -> Result<Vec<LabelSet>, Memory>
    ensures { IfOk result (λ kept. kept.items ≡ filter (λ s. is_read matcher.now.value && as_wanted wanted (matches matcher.now.value (value_of s matcher.now.label))) samples.now) }
{
    match Pattern::new(alloc, &matcher.value) {
        Ok(mut pattern) => matching(alloc, &mut pattern, &matcher.label, samples, wanted),
        Err(PatternError::BadPattern) => Ok(Vec::new(alloc)),
        Err(PatternError::Memory) => Err(Memory),
    }
}

/// The samples whose text of a label is matched by a pattern, or isn't.
fn matching(
    alloc: Global,
    pattern: &mut Pattern,
    label: &Text,
    samples: &[LabelSet],
    wanted: bool,
) -> Result<Vec<LabelSet>, Memory>
    ensures { IfOk result (λ kept. kept.items ≡ filter (λ s. as_wanted wanted (matches pattern.old (value_of s label.now))) samples.now) }
{
    let mut kept = Vec::new(alloc);
    for sample in samples {
        let text = Text::of(alloc, text_of(sample, label.as_str()))?;
        if as_wanted(wanted, pattern.matches(alloc, &text)?) {
            kept.push(sample.copy()?)?;
        }
    }
    Ok(kept)
}
