//! What a row says of a label.
ghost use Rattle.std.specs.Prelude.{◌↔◌, IsTrue};
ghost use Rattle.lf_semantics.specs.ClassRows.{HasShape};
ghost use Rattle.lf_checks.specs.Judged.{IsGuaranteed, IsImpossible};

use lf_classes::{Row, Universe};

/// Whether a row isn't empty and calls a label impossible. A name that is no label of the universe is judged as `*`.
pub(crate) fn is_impossible(universe: &Universe, row: &Row, name: &str) -> bool
    requires { HasShape universe.now row.now }
    ensures { IsTrue result ↔ IsImpossible universe.now row.now name.now }
{
    let label = universe.label_of(name);
    !row.is_empty() && !row.has_text(label)
}

/// Whether a row isn't empty and calls a label guaranteed. A name that is no label of the universe is judged as `*`.
pub(crate) fn is_guaranteed(universe: &Universe, row: &Row, name: &str) -> bool
    requires { HasShape universe.now row.now }
    ensures { IsTrue result ↔ IsGuaranteed universe.now row.now name.now }
{
    let label = universe.label_of(name);
    !row.is_empty() && !row.has(label, 0)
}
