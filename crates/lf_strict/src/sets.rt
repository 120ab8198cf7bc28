//! The one sample without labels.
ghost use Rattle.std.specs.Prelude.{Some};
ghost use Rattle.lf_semantics.specs.Evaluation.{IsBare};
ghost use Rattle.lf_witness.specs.Strict.{IsSet};
ghost use Rattle.lf_witness.specs.StrictRuns.{InOrder};

use crate::lending::Samples;
use lf_ast::LabelSet;
use std::alloc::Global;

/// The one sample without labels.
pub fn bare<'a>(alloc: Global) -> Samples<'a>
    ensures { InOrder (IsSet IsBare) (Some result) }
{
    Samples::alone(LabelSet::new(alloc))
}
