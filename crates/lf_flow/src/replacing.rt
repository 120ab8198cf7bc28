//! The row of `label_replace`.
ghost use Rattle.std.specs.Prelude.{◌≡◌, ◌+◌, ◌<◌, ◌&&◌, ◌||◌, ◌==◌, eqb, false, length, not, true, slice_index_or, IfNone, IfOk, IfSome, OnOk};
ghost use Rattle.lf_pattern.specs.Matching.{IsRead, matches};
ghost use Rattle.lf_semantics.specs.ClassRows.{HasShape, holds};
ghost use Rattle.lf_semantics.specs.Listing.{IsListing, label_of, named_at};
ghost use Rattle.lf_ast.specs.Tree.{trees};
ghost use Rattle.lf_ast.specs.Arguments.{texts_of};
ghost use Rattle.lf_semantics.specs.Passing.{is_plain};
ghost use Rattle.lf_semantics.specs.RowTable.{has_class, is_expansion, may_fail, may_match, replacing_row, set_at, source_set};
ghost use Rattle.lf_semantics.specs.Strings.{replacing};
ghost use Rattle.lf_flow.specs.views.ClassSets.{IsSet, is_listed};

use lf_ast::{Expr, MatchOp, has_dollar, text_at};
use lf_base::names::is_label_name;
use lf_base::{Memory, Text};
use lf_classes::{Row, Universe};
use lf_pattern::{Pattern, PatternError, plain_alternatives};
use std::alloc::Global;

/// Whether a sample's source may match the pattern, and whether it may fail it.
#[derive(Clone, Copy)]
struct Outcomes {
    may_match: bool,
    may_fail: bool,
}

/// Makes the row of the operand that of `label_replace`, whose arguments these are.
pub fn replace_label(
    alloc: Global,
    universe: &Universe,
    args: &[Expr],
    row: &mut Row,
) -> Result<(), Memory>
    requires shape { HasShape universe.now row.old }
    ensures { OnOk result (row.new ≡ replacing_row universe.now (replacing (texts_of (trees args.now))) row.old) }
{
    let pattern = Text::of(alloc, text_at(args, 4))?;
    let outcomes = outcomes_of(alloc, universe, row, text_at(args, 3), &pattern)?;
    let label = universe.label_of(text_at(args, 1));
    let on = replaced(alloc, universe, row, label, text_at(args, 2), outcomes)?;
    row.set_classes(label, &on);
    Ok(())
}

/// The classes of the target: the replacement's where the source may match, and its own where it may fail.
fn replaced(
    alloc: Global,
    universe: &Universe,
    row: &Row,
    label: u32,
    replacement: &str,
    outcomes: Outcomes,
) -> Result<Vec<bool>, Memory>
    requires shape { HasShape universe.now row.now }
    requires label { label < length universe.now.named }
    ensures { IfOk result (λ on. IsSet (length (named_at universe.now label) + 2) (λ class. (outcomes.may_match && is_expansion universe.now replacement.now label class) || (outcomes.may_fail && holds row.now label class)) on.items) }
{
    let any = has_dollar(replacement);
    let own = universe.class_of(label, replacement);
    let mut on = Vec::new(alloc);
    for class in 0..universe.classes(label) {
        let expands = outcomes.may_match && (any || class == own);
        on.push(expands || (outcomes.may_fail && row.has(label, class)))?;
    }
    Ok(on)
}

/// What may come of a pattern at the texts that the source has in a row. A source that is no label name has only the empty text.
fn outcomes_of(
    alloc: Global,
    universe: &Universe,
    row: &Row,
    source: &str,
    pattern: &Text,
) -> Result<Outcomes, Memory>
    requires shape { HasShape universe.now row.now }
    ensures matches { IfOk result (λ o. o.may_match ≡ has_class universe.now (may_match universe.now pattern.now (label_of universe.now source.now)) (source_set universe.now row.now source.now)) }
    ensures fails { IfOk result (λ o. o.may_fail ≡ has_class universe.now (may_fail universe.now pattern.now (label_of universe.now source.now)) (source_set universe.now row.now source.now)) }
{
    let label = universe.label_of(source);
    let matched = matched_once(alloc, universe, label, pattern)?;
    let failed = failed(alloc, &matched)?;
    if is_label_name(source.as_bytes()) {
        let may_match = meets(universe, row, label, &matched);
        let may_fail = meets(universe, row, label, &failed);
        return Ok(Outcomes {
            may_match,
            may_fail,
        });
    }
    Ok(Outcomes {
        may_match: matched[0],
        may_fail: failed[0],
    })
}

/// Whether a class of the label is in its set and on.
fn meets(universe: &Universe, row: &Row, label: u32, on: &[bool]) -> bool
    requires shape { HasShape universe.now row.now }
    requires label { label < length universe.now.named }
    requires classes { length on.now ≡ length (named_at universe.now label) + 2 }
    ensures { result ≡ has_class universe.now (λ class. slice_index_or on.now class false) (set_at universe.now row.now label) }
{
    let mut found = false;
    for class in 0..universe.classes(label) {
        found = found || (row.has(label, class) && on[class as usize]);
    }
    found
}

/// The classes of a label that may match a pattern. They are looked for only where the universe hasn't cached them.
fn matched_once(
    alloc: Global,
    universe: &Universe,
    label: u32,
    pattern: &Text,
) -> Result<Vec<bool>, Memory>
    requires label { label < length universe.now.named }
    ensures { IfOk result (λ on. IsSet (length (named_at universe.now label) + 2) (may_match universe.now pattern.now label) on.items) }
{
    match universe.cached_row(label, MatchOp::Matches, pattern.as_str()) {
        Some(passing) => classes_in(alloc, universe, label, passing),
        None => matched(alloc, universe, label, pattern),
    }
}

/// The classes that a label has in a row.
fn classes_in(
    alloc: Global,
    universe: &Universe,
    label: u32,
    row: &Row,
) -> Result<Vec<bool>, Memory>
    requires label { label < length universe.now.named }
    requires shape { HasShape universe.now row.now }
    ensures { IfOk result (λ on. IsSet (length (named_at universe.now label) + 2) (holds row.now label) on.items) }
{
    let mut on = Vec::new(alloc);
    for class in 0..universe.classes(label) {
        on.push(row.has(label, class))?;
    }
    Ok(on)
}

/// The classes of a label that may match a pattern. 'Any other text' may match one that isn't plain, and what is no pattern is matched by no text of its own.
pub fn matched(
    alloc: Global,
    universe: &Universe,
    label: u32,
    pattern: &Text,
) -> Result<Vec<bool>, Memory>
    requires label { label < length universe.now.named }
    ensures { IfOk result (λ on. IsSet (length (named_at universe.now label) + 2) (may_match universe.now pattern.now label) on.items) }
{
    match matched_if_read(alloc, universe, label, pattern)? {
        Some(on) => Ok(on),
        None => unread(alloc, universe.classes(label), true),
    }
}

/// The classes of a label that may match a text, if that is a pattern. The alternatives of a plain one are looked up, and any other is tried on each class.
pub fn matched_if_read(
    alloc: Global,
    universe: &Universe,
    label: u32,
    pattern: &Text,
) -> Result<Option<Vec<bool>>, Memory>
    requires label { label < length universe.now.named }
    ensures set { IfOk result (λ found. IfSome found (λ on. IsSet (length (named_at universe.now label) + 2) (may_match universe.now pattern.now label) on.items)) }
    ensures read { IfOk result (λ found. IfSome found (λ _. IsRead pattern.now)) }
    ensures unread { IfOk result (λ found. IfNone found (IsRead pattern.now → ⊥)) }
{
    let _labels = universe.labels();
    match plain_alternatives(alloc, pattern)? {
        Some(alternatives) => Ok(Some(listed(alloc, universe, label, alternatives.as_slice())?)),
        None => tried(alloc, universe, label, pattern),
    }
}

/// The classes of a label whose texts are among some.
fn listed(
    alloc: Global,
    universe: &Universe,
    label: u32,
    texts: &[Text],
) -> Result<Vec<bool>, Memory>
    requires listing { IsListing universe.now }
    requires label { label < length universe.now.named }
    ensures { IfOk result (λ on. IsSet (length (named_at universe.now label) + 2) (is_listed universe.now label texts.now) on.items) }
{
    let count = universe.classes(label);
    let mut on = vec![in alloc; false; count as usize]?;
    for text in texts {
        let class = universe.class_of(label, text.as_str());
        on[class as usize] = true;
    }
    on[count as usize - 1] = false;
    Ok(on)
}

/// The classes of a label that may match a text that isn't plain, if it is a pattern.
fn tried(
    alloc: Global,
    universe: &Universe,
    label: u32,
    pattern: &Text,
) -> Result<Option<Vec<bool>>, Memory>
    requires label { label < length universe.now.named }
    requires other { is_plain pattern.now ≡ false }
    ensures set { IfOk result (λ found. IfSome found (λ on. IsSet (length (named_at universe.now label) + 2) (may_match universe.now pattern.now label) on.items)) }
    ensures read { IfOk result (λ found. IfSome found (λ _. IsRead pattern.now)) }
    ensures unread { IfOk result (λ found. IfNone found (IsRead pattern.now → ⊥)) }
{
    match Pattern::new(alloc, pattern) {
        Ok(read) => Ok(Some(asked(alloc, universe, label, &read)?)),
        Err(PatternError::BadPattern) => Ok(None),
        Err(PatternError::Memory) => Err(Memory),
    }
}

/// The classes whose texts match a pattern that isn't plain, and 'any other text'.
fn asked(
    alloc: Global,
    universe: &Universe,
    label: u32,
    pattern: &Pattern,
) -> Result<Vec<bool>, Memory>
    requires label { label < length universe.now.named }
    requires other { is_plain pattern.now ≡ false }
    ensures { IfOk result (λ on. IsSet (length (named_at universe.now label) + 2) (may_match universe.now pattern.now label) on.items) }
{
    let mut probe = pattern.probe(alloc)?;
    let mut on = Vec::new(alloc);
    for class in 0..universe.classes(label) {
        let found = match universe.class_text(label, class) {
            Some(text) => probe.matches(text),
            None => true,
        };
        on.push(found)?;
    }
    Ok(on)
}

/// Of so many classes none but 'any other text', the last, where it may match.
pub fn unread(alloc: Global, count: u32, other: bool) -> Result<Vec<bool>, Memory>
    ensures { IfOk result (λ on. IsSet count (λ class. eqb (class + 1) count && other) on.items) }
{
    let mut on = Vec::new(alloc);
    for class in 0..count {
        on.push(class + 1 == count && other)?;
    }
    Ok(on)
}

/// The classes that may fail: those that don't match, and 'any other text', the last.
pub fn failed(alloc: Global, matched: &[bool]) -> Result<Vec<bool>, Memory>
    ensures { IfOk result (λ on. IsSet (length matched.now) (λ class. eqb (class + 1) (length matched.now) || not (slice_index_or matched.now class false)) on.items) }
{
    let mut on = Vec::new(alloc);
    for class in 0..matched.len() {
        on.push(class + 1 == matched.len() || !matched[class])?;
    }
    Ok(on)
}
