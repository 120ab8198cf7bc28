//! How open constructs are listed.
ghost use Rattle.std.specs.Prelude.{◌≡◌, ◌++◌, IsTrue, OnOk};
ghost use Rattle.lf_open.specs.views.Adding.{Adds};
ghost use Rattle.lf_open.specs.views.Told.{opened};

use crate::construct::Construct;
use crate::open_at::OpenAt;
use lf_base::{Memory, Seq, Span};

/// Puts an open construct behind others where it holds.
pub(crate) fn add_if(
    holds: bool,
    construct: Construct,
    rule: u32,
    span: Span,
    found: &mut Vec<OpenAt>,
) -> Result<(), Memory>
    ensures { OnOk result (Adds (λ o. IsTrue holds × (o ≡ record { construct = construct; rule = rule; span = span })) found.old.items found.new.items) }
{
    if holds {
        found.push(OpenAt {
            construct,
            rule,
            span,
        })?;
    }
    Ok(())
}

/// The same, by what the list then is.
pub(crate) fn push_if(
    holds: bool,
    construct: Construct,
    rule: u32,
    span: Span,
    found: &mut Seq<OpenAt>,
) -> Result<(), Memory>
    ensures { OnOk result (found.new ≡ found.old ++ opened holds construct rule span) }
{
    if holds {
        found.push(OpenAt {
            construct,
            rule,
            span,
        })
    } else {
        Ok(())
    }
}
