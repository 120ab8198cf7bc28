//! Whether a matcher passes a text that may be a class.
ghost use Rattle.std.specs.Prelude.{◌≡◌, ◌<◌, length, IfOk, IfSome};
ghost use Rattle.lf_semantics.specs.ClassRows.{HasShape, holds};
ghost use Rattle.lf_semantics.specs.Listing.{class_of, other_class};
ghost use Rattle.lf_semantics.specs.Passing.{passes};

use lf_ast::Matcher;
use lf_base::{Memory, Text};
use lf_classes::{Row, Universe, passes};
use lf_nodes::takes_pattern;
use std::alloc::Global;

/// Whether a matcher passes a text. Where the text is a class of the matcher's label, and the universe has cached which classes pass the pattern, it is looked up, so that
/// the pattern isn't read anew for each text.
pub fn passes_in(
    alloc: Global,
    universe: &Universe,
    matcher: &Matcher,
    text: &Text,
) -> Result<bool, Memory>
    ensures { IfOk result (λ found. found ≡ passes matcher.now.op matcher.now.value text.now) }
{
    if takes_pattern(matcher.op) {
        match known_pass(universe, matcher, text.as_str()) {
            Some(found) => Ok(found),
            None => passes(alloc, matcher, text),
        }
    } else {
        passes(alloc, matcher, text)
    }
}

/// Whether a matcher with a pattern passes a text, if the text is a class of the matcher's label and the universe has cached it. No pattern is read.
pub fn known_pass(universe: &Universe, matcher: &Matcher, text: &str) -> Option<bool>
    ensures { IfSome result (λ found. found ≡ passes matcher.now.op matcher.now.value text.now) }
{
    let label = universe.label_of(matcher.label.as_str());
    match universe.cached_row(label, matcher.op, matcher.value.as_str()) {
        Some(row) => own_class(universe, row, label, text),
        None => None,
    }
}

/// Whether a row has the class of a text, if that isn't 'any other text'.
fn own_class(universe: &Universe, row: &Row, label: u32, text: &str) -> Option<bool>
    requires label { label < length universe.now.named }
    requires shape { HasShape universe.now row.now }
    ensures { IfSome result (λ found. (class_of universe.now label text.now < other_class universe.now label) × (found ≡ holds row.now label (class_of universe.now label text.now))) }
{
    let classes = universe.classes(label);
    let class = universe.class_of(label, text);
    if class + 1 < classes {
        Some(row.has(label, class))
    } else {
        None
    }
}
