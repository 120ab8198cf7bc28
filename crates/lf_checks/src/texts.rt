//! What findings say.
ghost use Rattle.std.specs.Prelude.{◌≡◌, ◌++◌, IfOk};
ghost use Rattle.lf_checks.specs.views.Cases.{check_at, said};

use lf_ast::Finding;
use lf_base::{Memory, Text};
use std::alloc::Global;

/// What a finding says. `place` is where the name of the other rule stands, if it names one.
pub fn text_of(alloc: Global, finding: &Finding, place: &str) -> Result<Text, Memory>
    ensures { IfOk result (λ text. text ≡ said (check_at finding.now.check) finding.now.case finding.now.label place.now) }
{
    let label = finding.label.as_str();
    match (finding.check, finding.case) {
        (1, _) => Text::of(alloc, "the alert's expression compares nothing"),
        (2, 0) => within(alloc, "label ", label, " is never on the alert's sample"),
        (2, _) => Text::of(alloc, "the template can't be read"),
        (3, _) => within(alloc, "the same rule stands at ", place, ""),
        (4, 0) => within(alloc, "", label, " is recorded by no accepted rule"),
        (4, _) => within(alloc, "", label, " is read in its own making"),
        (5, 0) => Text::of(alloc, "the pattern is one plain text"),
        (5, _) => Text::of(alloc, "the pattern is anchored already"),
        (6, _) => within(alloc, "label ", label, " is never on the operand"),
        (7, _) => Text::of(alloc, "the expression has no sample in any run"),
        (8, _) => Text::of(alloc, "a rule needs a scalar or an instant vector"),
        (_, 0) => within(alloc, "label ", label, " replaces one that each sample has"),
        (_, _) => within(alloc, "label ", label, " is removed but on no sample"),
    }
}

/// A text within a sentence.
fn within(alloc: Global, front: &str, middle: &str, back: &str) -> Result<Text, Memory>
    ensures { IfOk result (λ text. text ≡ front.now ++ (middle.now ++ back.now)) }
{
    let mut text = Text::of(alloc, front)?;
    text.push(middle)?;
    text.push(back)?;
    Ok(text)
}
