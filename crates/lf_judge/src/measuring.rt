//! The limits on rules.
ghost use Rattle.std.specs.Prelude.{◌≡◌, ◌≤◌, Bool, true, length, IfOk, IfErr};
ghost use Rattle.lf_ast.specs.Rules.{rule_trees};
ghost use Rattle.lf_checks.specs.views.Recorded.{AreOf};
ghost use Rattle.lf_semantics.specs.Environments.{recorded_names};
ghost use Rattle.lf_semantics.specs.Listing.{class_count as class_count_of, label_count, universe_of};
ghost use Rattle.lf_classes.specs.Limits.{most_classes, most_labels};
ghost use Rattle.lf_judge.specs.Limits.{AreWithin, EndsWith, most_rules, most_words, word_count as word_count_of};

use crate::JudgeEnd;
use lf_ast::Rule;
use lf_base::Seq;
use lf_checks::RecordedNames;
use lf_classes::{ClassError, Universe};
use lf_worlds::label_selectors_over;
use std::alloc::Global;

/// The most rules that may be accepted.
const MOST_RULES: usize = 20_000;

/// The number of that limit in a status.
const ACCEPTED_RULES: u8 = 4;

/// The number of the limit on labels.
const LABELS: u8 = 5;

/// The number of the limit on the classes of all labels.
const CLASSES: u8 = 6;

/// The most words of 64 classes that the rows of all recorded names may have.
const MOST_WORDS: u64 = 4_194_304;

/// The number of that limit in a status.
const WORDS: u8 = 7;

/// The most labels, times selectors, that trials are made for.
const MOST_SELECTED: u64 = 4_194_304;

/// The number of that limit in a status.
const SELECTED: u8 = 8;

/// The universe of rules, where they pass no limit. The limits are tested in this order: on the rules, the labels, the classes, the words of the rows of recorded names, and,
/// where verdicts on labels are asked for, on the labels times the selectors that there are to try.
pub fn measure(alloc: Global, rules: &Seq<Rule>, labels: bool) -> Result<Universe, JudgeEnd>
    ensures found { IfOk result (λ universe. universe ≡ universe_of (rule_trees rules.now)) }
    ensures within { IfOk result (λ _. AreWithin labels (rule_trees rules.now)) }
    ensures refused { IfErr result (EndsWith labels (rule_trees rules.now)) }
{
    let measured = measure_with_names(alloc, rules, labels)?;
    Ok(measured.universe)
}

/// The universe of rules that pass no limit, and what was made to measure them.
#[derive(Drop)]
pub(crate) struct Measured {
    pub(crate) universe: Universe,
    pub(crate) recorded: RecordedNames,
}

/// As `measure`, with the names that the rules record and what they read.
pub(crate) fn measure_with_names(
    alloc: Global,
    rules: &Seq<Rule>,
    labels: bool,
) -> Result<Measured, JudgeEnd>
    ensures found { IfOk result (λ measured. measured.universe ≡ universe_of (rule_trees rules.now)) }
    ensures recorded { IfOk result (λ measured. AreOf (rule_trees rules.now) measured.recorded) }
    ensures within { IfOk result (λ _. AreWithin labels (rule_trees rules.now)) }
    ensures refused { IfErr result (EndsWith labels (rule_trees rules.now)) }
{
    if rules.len() > MOST_RULES {
        return Err(JudgeEnd::Limit {
            quantity: ACCEPTED_RULES,
            found: rules.len() as u64,
        });
    }
    let universe = build(alloc, rules)?;
    let recorded = RecordedNames::of(alloc, rules)?;
    limit(alloc, &universe, rules, &recorded, labels)?;
    Ok(Measured { universe, recorded })
}

/// Refuses rules that pass the limit on words or the one on trials, where they pass none of those before.
fn limit(
    alloc: Global,
    universe: &Universe,
    rules: &Seq<Rule>,
    recorded: &RecordedNames,
    labels: bool,
) -> Result<(), JudgeEnd>
    requires universe { universe.now ≡ universe_of (rule_trees rules.now) }
    requires recorded { AreOf (rule_trees rules.now) recorded.now }
    requires few { length rules.now ≤ most_rules }
    requires labels { label_count (universe_of (rule_trees rules.now)) ≤ most_labels }
    requires classes { class_count_of (universe_of (rule_trees rules.now)) ≤ most_classes }
    ensures within { IfOk result (λ _. AreWithin labels (rule_trees rules.now)) }
    ensures refused { IfErr result (EndsWith labels (rule_trees rules.now)) }
{
    limit_words(universe, rules, recorded)?;
    if labels {
        return limit_trials(alloc, universe, rules, recorded);
    }
    Ok(())
}

/// Refuses rules that pass the limit on words, where they pass none of those before.
fn limit_words(
    universe: &Universe,
    rules: &Seq<Rule>,
    recorded: &RecordedNames,
) -> Result<(), JudgeEnd>
    requires universe { universe.now ≡ universe_of (rule_trees rules.now) }
    requires recorded { AreOf (rule_trees rules.now) recorded.now }
    requires few { length rules.now ≤ most_rules }
    requires labels { label_count (universe_of (rule_trees rules.now)) ≤ most_labels }
    requires classes { class_count_of (universe_of (rule_trees rules.now)) ≤ most_classes }
    ensures within { IfOk result (λ _. word_count_of (rule_trees rules.now) ≤ most_words) }
    ensures refused { (labels : Bool) → IfErr result (EndsWith labels (rule_trees rules.now)) }
{
    let words = word_count(universe, rules, recorded);
    if words > MOST_WORDS {
        return Err(JudgeEnd::Limit {
            quantity: WORDS,
            found: words,
        });
    }
    Ok(())
}

/// Refuses rules that pass the limit on trials, where they pass none of those before and verdicts on labels are asked for.
fn limit_trials(
    alloc: Global,
    universe: &Universe,
    rules: &Seq<Rule>,
    recorded: &RecordedNames,
) -> Result<(), JudgeEnd>
    requires universe { universe.now ≡ universe_of (rule_trees rules.now) }
    requires recorded { AreOf (rule_trees rules.now) recorded.now }
    requires few { length rules.now ≤ most_rules }
    requires labels { label_count (universe_of (rule_trees rules.now)) ≤ most_labels }
    requires classes { class_count_of (universe_of (rule_trees rules.now)) ≤ most_classes }
    requires words { word_count_of (rule_trees rules.now) ≤ most_words }
    ensures within { IfOk result (λ _. AreWithin true (rule_trees rules.now)) }
    ensures refused { IfErr result (EndsWith true (rule_trees rules.now)) }
{
    let sources = recorded.sources();
    match label_selectors_over(alloc, universe, rules, sources, MOST_SELECTED)? {
        Some(found) => Err(JudgeEnd::Limit {
            quantity: SELECTED,
            found,
        }),
        None => Ok(()),
    }
}

/// The universe of rules that aren't too many, where it passes no limit.
fn build(alloc: Global, rules: &Seq<Rule>) -> Result<Universe, JudgeEnd>
    requires { length rules.now ≤ most_rules }
    ensures found { IfOk result (λ universe. universe ≡ universe_of (rule_trees rules.now)) }
    ensures labels { IfOk result (λ _. label_count (universe_of (rule_trees rules.now)) ≤ most_labels) }
    ensures classes { IfOk result (λ _. class_count_of (universe_of (rule_trees rules.now)) ≤ most_classes) }
    ensures refused { (labels : Bool) → IfErr result (EndsWith labels (rule_trees rules.now)) }
{
    match Universe::build(alloc, rules) {
        Ok(universe) => Ok(universe),
        Err(ClassError::Memory) => Err(JudgeEnd::Memory),
        Err(ClassError::TooManyLabels { found }) => Err(JudgeEnd::Limit {
            quantity: LABELS,
            found,
        }),
        Err(ClassError::TooManyClasses { found }) => Err(JudgeEnd::Limit {
            quantity: CLASSES,
            found,
        }),
    }
}

/// The words that the rows of all recorded names have.
fn word_count(universe: &Universe, rules: &Seq<Rule>, recorded: &RecordedNames) -> u64
    requires universe { universe.now ≡ universe_of (rule_trees rules.now) }
    requires recorded { AreOf (rule_trees rules.now) recorded.now }
    requires few { length rules.now ≤ most_rules }
    ensures { result ≡ word_count_of (rule_trees rules.now) }
{
    let classes = u64::from(universe.class_count());
    name_count(rules, recorded) as u64 * ((classes + 63) / 64)
}

/// How many names the rules record: no more than there are rules.
fn name_count(rules: &Seq<Rule>, recorded: &RecordedNames) -> usize
    requires { AreOf (rule_trees rules.now) recorded.now }
    ensures count { result ≡ length (recorded_names (rule_trees rules.now)) }
    ensures few { result ≤ length rules.now }
{
    recorded.count()
}
