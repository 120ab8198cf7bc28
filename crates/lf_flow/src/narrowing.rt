//! What matchers leave of a row.
ghost use Rattle.std.specs.Prelude.{◌≡◌, ◌<◌, ◌+◌, ◌||◌, eqb, length, not, IfOk, OnOk};
ghost use Rattle.lf_ast.specs.declared.expr.MatchOp.TheVariants.{Equal, NotEqual, NotMatches};
ghost use Rattle.lf_semantics.specs.ClassRows.{HasShape, narrowed};
ghost use Rattle.lf_semantics.specs.Listing.{IsListing, named_at};
ghost use Rattle.lf_semantics.specs.RowTable.{is_label, passes_class};
ghost use Rattle.lf_flow.specs.views.ClassSets.{IsSet};

use crate::replacing::{failed, matched, matched_if_read, unread};
use lf_ast::{MatchOp, Matcher};
use lf_base::{Memory, Text};
use lf_classes::{Row, Universe};
use std::alloc::Global;

/// Leaves the label of a matcher the classes that pass it. Those that pass a pattern are looked for only where the universe hasn't cached them.
pub fn narrow(
    alloc: Global,
    universe: &Universe,
    matcher: &Matcher,
    row: &mut Row,
) -> Result<(), Memory>
    requires listing { IsListing universe.now }
    requires shape { HasShape universe.now row.old }
    ensures { OnOk result (row.new ≡ narrowed (λ label class. not (is_label universe.now matcher.now.label label) || passes_class universe.now matcher.now.op matcher.now.value label class) row.old) }
{
    let label = universe.label_of(matcher.label.as_str());
    match universe.cached_row(label, matcher.op, matcher.value.as_str()) {
        Some(passing) => {
            row.meet_label(label, passing);
            Ok(())
        }
        None => narrow_label(alloc, universe, label, matcher.op, &matcher.value, row),
    }
}

/// Leaves a label the classes that pass an operator and a value, which are looked for.
pub fn narrow_label(
    alloc: Global,
    universe: &Universe,
    label: u32,
    op: MatchOp,
    value: &Text,
    row: &mut Row,
) -> Result<(), Memory>
    requires listing { IsListing universe.now }
    requires label { label < length universe.now.named }
    requires shape { HasShape universe.now row.old }
    ensures { OnOk result (row.new ≡ narrowed (λ l class. not (eqb label l) || passes_class universe.now op value.now l class) row.old) }
{
    match op {
        MatchOp::Equal => {
            keep_text(universe, label, value.as_str(), row);
            Ok(())
        }
        MatchOp::NotEqual => {
            drop_text(universe, label, value.as_str(), row);
            Ok(())
        }
        MatchOp::Matches => {
            let on = matched(alloc, universe, label, value)?;
            row.narrow_classes(label, &on);
            Ok(())
        }
        MatchOp::NotMatches => {
            let on = unmatched(alloc, universe, label, value)?;
            row.narrow_classes(label, &on);
            Ok(())
        }
    }
}

/// Leaves a label the class of a text alone. 'Any other text' is never the text.
fn keep_text(universe: &Universe, label: u32, text: &str, row: &mut Row)
    requires listing { IsListing universe.now }
    requires label { label < length universe.now.named }
    requires shape { HasShape universe.now row.old }
    ensures { row.new ≡ narrowed (λ l class. not (eqb label l) || passes_class universe.now Equal text.now l class) row.old }
{
    let count = universe.classes(label);
    let class = universe.class_of(label, text);
    if class + 1 == count {
        row.clear();
    } else {
        row.keep_class(label, class);
    }
}

/// Takes the class of a text from a label. 'Any other text' is never the text.
fn drop_text(universe: &Universe, label: u32, text: &str, row: &mut Row)
    requires listing { IsListing universe.now }
    requires label { label < length universe.now.named }
    requires shape { HasShape universe.now row.old }
    ensures { row.new ≡ narrowed (λ l class. not (eqb label l) || passes_class universe.now NotEqual text.now l class) row.old }
{
    let _empty = row.is_empty();
    let count = universe.classes(label);
    let class = universe.class_of(label, text);
    if class + 1 < count {
        row.keep(label, class, false);
    }
}

/// The classes of a label that pass a `!~`. Of what is no pattern 'any other text' alone does.
fn unmatched(
    alloc: Global,
    universe: &Universe,
    label: u32,
    pattern: &Text,
) -> Result<Vec<bool>, Memory>
    requires label { label < length universe.now.named }
    ensures { IfOk result (λ on. IsSet (length (named_at universe.now label) + 2) (passes_class universe.now NotMatches pattern.now label) on.items) }
{
    match matched_if_read(alloc, universe, label, pattern)? {
        Some(matched) => failed(alloc, &matched),
        None => unread(alloc, universe.classes(label), true),
    }
}
