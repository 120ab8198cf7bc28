//! The row of `label_join`.
ghost use Rattle.std.specs.Prelude.{◌≡◌, ◌<◌, eqb, not, true, cond, IfOk, OnOk};
ghost use Rattle.std.specs.List.{list_all, list_any};
ghost use Rattle.lf_semantics.specs.ClassRows.{HasShape};
ghost use Rattle.lf_ast.specs.Tree.{trees};
ghost use Rattle.lf_ast.specs.Arguments.{texts_of};
ghost use Rattle.lf_semantics.specs.RowTable.{is_join, joining_row, may_be_absent, may_be_present};
ghost use Rattle.lf_semantics.specs.Strings.{joining, shows};
ghost use Rattle.lf_flow.specs.views.ClassSets.{IsSet};

use lf_ast::{Expr, text_at, text_of};
use lf_base::Memory;
use lf_classes::{Row, Universe};
use lf_nodes::joined_sources;
use std::alloc::Global;

/// Makes the row of the operand that of `label_join`, whose arguments these are.
pub fn join_labels(
    alloc: Global,
    universe: &Universe,
    args: &[Expr],
    row: &mut Row,
) -> Result<(), Memory>
    requires shape { HasShape universe.now row.old }
    ensures { OnOk result (row.new ≡ joining_row universe.now (joining (texts_of (trees args.now))) row.old) }
{
    let label = universe.label_of(text_at(args, 1));
    let count = universe.classes(label);
    let on = joined(alloc, universe, args, row, count)?;
    row.set_classes(label, &on);
    Ok(())
}

/// The classes that the joined text may have.
#[tactic(auto, using(crate::proofs::ArgumentTexts::texts_behind))]
fn joined(
    alloc: Global,
    universe: &Universe,
    args: &[Expr],
    row: &Row,
    count: u32,
) -> Result<Vec<bool>, Memory>
    requires shape { HasShape universe.now row.now }
    ensures { IfOk result (λ on. IsSet count (is_join universe.now (joining (texts_of (trees args.now))) row.now) on.items) }
{
    let sources = joined_sources(args);
    if shows(args) {
        return texts(alloc, count, false, true);
    }
    if are_absent(universe, row, sources) {
        return texts(alloc, count, true, false);
    }
    texts(alloc, count, !is_one_present(universe, row, sources), true)
}

/// The empty text where it may be, and every other class where a text may be.
fn texts(alloc: Global, count: u32, empty: bool, some: bool) -> Result<Vec<bool>, Memory>
    ensures { IfOk result (λ on. IsSet count (λ class. cond (eqb class 0) empty some) on.items) }
{
    let mut on = Vec::new(alloc);
    for class in 0..count {
        on.push(if class == 0 { empty } else { some })?;
    }
    Ok(on)
}

/// Whether there is a separator between two sources.
#[tactic(auto, using(crate::proofs::ArgumentTexts::length_texts))]
fn shows(args: &[Expr]) -> bool
    ensures { result ≡ shows (joining (texts_of (trees args.now))) }
{
    text_at(args, 2) != "" && args.len() > 4
}

/// Whether each source is always absent.
fn are_absent(universe: &Universe, row: &Row, sources: &[Expr]) -> bool
    requires shape { HasShape universe.now row.now }
    ensures { result ≡ list_all (λ source. not (may_be_present universe.now row.now source)) (texts_of (trees sources.now)) }
{
    for source in sources {
        if may_be_present(universe, row, text_of(source)) {
            return false;
        }
    }
    true
}

/// Whether one of the sources is never absent.
fn is_one_present(universe: &Universe, row: &Row, sources: &[Expr]) -> bool
    requires shape { HasShape universe.now row.now }
    ensures { result ≡ list_any (λ source. not (may_be_absent universe.now row.now source)) (texts_of (trees sources.now)) }
{
    for source in sources {
        if !may_be_absent(universe, row, text_of(source)) {
            return true;
        }
    }
    false
}

/// Whether a label may have the empty text.
fn may_be_absent(universe: &Universe, row: &Row, name: &str) -> bool
    requires shape { HasShape universe.now row.now }
    ensures { result ≡ may_be_absent universe.now row.now name.now }
{
    row.has(universe.label_of(name), 0)
}

/// Whether a label may have another text than the empty one.
pub fn may_be_present(universe: &Universe, row: &Row, name: &str) -> bool
    requires shape { HasShape universe.now row.now }
    ensures { result ≡ may_be_present universe.now row.now name.now }
{
    row.has_text(universe.label_of(name))
}
