//! The cases of the checks.
ghost use Rattle.std.specs.Prelude.{◌≡◌, ◌∷◌, [], cond, IfOk};
ghost use Rattle.lf_checks.specs.Finding.{rank};
ghost use Rattle.lf_checks.specs.views.Cases.{check_of, number_of, row_of, same_row};

use lf_ast::Finding;
use lf_base::{Memory, Span, Text};
use std::alloc::Global;

/// What the checks find, in the order of their table.
#[derive(Clone, Copy, Drop, Debug)]
pub(crate) enum Case {
    /// The alert's expression compares nothing.
    ComparesNothing,
    /// No sample of the alert has the label that a template refers to.
    NeverOnAlert,
    /// A template can't be read.
    UnreadableTemplate,
    /// The same rule stands before.
    SameRule,
    /// No rule records the name.
    Unrecorded,
    /// The name is read in its own making.
    Cyclic,
    /// The pattern is one plain text.
    PlainPattern,
    /// The pattern anchors itself.
    AnchoredPattern,
    /// No sample of the operand has the label that is sought on it.
    NeverOnOperand,
    /// The expression has no sample in any run.
    NoSample,
    /// The expression is a string or a range vector.
    WrongType,
    /// The label replaces one that each sample has.
    ReplacesLabel,
    /// The label is removed but on no sample.
    RemovesNothing,
}

impl Case {
    /// The number of its check in the table, counted from 1.
    fn check(self) -> u8
        ensures { result ≡ rank (check_of self) }
    {
        match self {
            Case::ComparesNothing => 1,
            Case::NeverOnAlert | Case::UnreadableTemplate => 2,
            Case::SameRule => 3,
            Case::Unrecorded | Case::Cyclic => 4,
            Case::PlainPattern | Case::AnchoredPattern => 5,
            Case::NeverOnOperand => 6,
            Case::NoSample => 7,
            Case::WrongType => 8,
            Case::ReplacesLabel | Case::RemovesNothing => 9,
        }
    }

    /// Its own number among the cases of its check, counted from 0.
    fn number(self) -> u8
        ensures { result ≡ number_of self }
    {
        match self {
            Case::UnreadableTemplate
            | Case::Cyclic
            | Case::AnchoredPattern
            | Case::RemovesNothing => 1,
            _ => 0,
        }
    }

    /// The finding at a span, about a label or name; with the empty text for the cases that are about none.
    pub(crate) fn at(self, alloc: Global, span: Span, label: &str) -> Result<Finding, Memory>
        ensures { IfOk result (λ f. f ≡ row_of self span label.now) }
    {
        Ok(Finding {
            check: self.check(),
            case: self.number(),
            span,
            label: Text::of(alloc, label)?,
            other: None,
        })
    }
}

/// The finding that the rule with a number is the same, at a span.
pub(crate) fn same_rule(alloc: Global, span: Span, other: u32) -> Result<Finding, Memory>
    ensures { IfOk result (λ f. f ≡ same_row span other) }
{
    let case = Case::SameRule;
    Ok(Finding {
        check: case.check(),
        case: case.number(),
        span,
        label: Text::of(alloc, "")?,
        other: Some(other),
    })
}

/// The finding of a case at a span where it holds, and none else. The label or name is the empty text for the cases that are about none.
pub(crate) fn found_if(
    alloc: Global,
    holds: bool,
    case: Case,
    span: Span,
    label: &str,
) -> Result<Vec<Finding>, Memory>
    ensures { IfOk result (λ found. found.items ≡ cond holds (row_of case span label.now ∷ []) []) }
{
    let mut found = Vec::new(alloc);
    if holds {
        found.push(case.at(alloc, span, label)?)?;
    }
    Ok(found)
}
