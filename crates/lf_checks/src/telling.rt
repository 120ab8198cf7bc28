//! How findings are told.
ghost use Rattle.std.specs.Prelude.{◌≡◌, [], IsTrue, OnOk};
ghost use Rattle.lf_checks.specs.Finding.{finding};
ghost use Rattle.lf_checks.specs.views.Adding.{Adds};
ghost use Rattle.lf_checks.specs.views.Cases.{IsAbout, check_of, says_of};

use crate::case::Case;
use lf_ast::Finding;
use lf_base::{Memory, Span};
use std::alloc::Global;

/// Puts the finding of a case at a span behind others where it holds, about a label or name; with the empty text for the cases that are about none.
pub(crate) fn tell_if(
    alloc: Global,
    holds: bool,
    case: Case,
    span: Span,
    label: &str,
    found: &mut Vec<Finding>,
) -> Result<(), Memory>
    requires { IsAbout case label.now }
    ensures { OnOk result (Adds (λ f. IsTrue holds × (f ≡ finding (check_of case) span (says_of case label.now []))) found.old.items found.new.items) }
{
    if holds {
        found.push(case.at(alloc, span, label)?)?;
    }
    Ok(())
}
