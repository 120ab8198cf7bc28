//! Which presences of a label a row leaves.
ghost use Rattle.std.specs.Prelude.{◌≡◌, ◌<◌, ◌&&◌, ℕ, List, false, length, map, true, IfOk};
ghost use Rattle.std.specs.List.{list_any};
ghost use Rattle.lf_ast.specs.Rules.{RuleTree};
ghost use Rattle.lf_classes.specs.Limits.{IsWithin};
ghost use Rattle.lf_semantics.specs.ClassRows.{HasShape};
ghost use Rattle.lf_semantics.specs.RowTable.{Environment};
ghost use Rattle.lf_trials.specs.Candidates.{labels_in};
ghost use Rattle.lf_trials.specs.Verdicts.{AreLabelVerdicts, IsLabelVerdict};
ghost use Rattle.lf_candidates.specs.views.ClassTexts.{name_at};
ghost use Rattle.lf_worlds.specs.views.Told.{label_verdict};
ghost use Rattle.lf_worlds.specs.views.Tried.{leaves_both};

use crate::verdict::LabelKnowledge;
use lf_base::{Memory, Seq};
use lf_candidates::leaves;
use lf_classes::{Row, Universe};
use std::alloc::Global;

/// Whether a row leaves both presences of some label.
pub fn has_open_label(universe: &Universe, row: &Row) -> bool
    requires { HasShape universe.now row.now }
    ensures { result ≡ list_any (leaves_both universe.now row.now) (labels_in universe.now) }
{
    for label in 0..universe.labels() {
        if leaves_both(universe, row, label) {
            return true;
        }
    }
    false
}

/// The verdicts on the labels by a row that leaves both presences of none.
pub fn settled(alloc: Global, universe: &Universe, row: &Row) -> Result<Seq<LabelKnowledge>, Memory>
    requires shape { HasShape universe.now row.now }
    requires settled { list_any (leaves_both universe.now row.now) (labels_in universe.now) ≡ false }
    ensures { (env : Environment) (rules : List RuleTree) (i : ℕ) → IfOk result (λ of. AreLabelVerdicts universe.now env rules i row.now (labels_in universe.now) (map label_verdict of)) }
{
    let count = universe.labels() as usize;
    let mut verdicts = Seq::with_capacity(alloc, count)?;
    for label in 0..universe.labels() {
        verdicts.push(by_row(universe, row, label))?;
    }
    Ok(verdicts)
}

/// Whether a row leaves both presences of a label.
pub fn leaves_both(universe: &Universe, row: &Row, label: u32) -> bool
    requires within { IsWithin universe.now }
    requires label { label < length universe.now.named }
    requires shape { HasShape universe.now row.now }
    ensures { result ≡ leaves_both universe.now row.now (name_at universe.now label) }
{
    leaves(universe, row, label, true) && leaves(universe, row, label, false)
}

/// The verdict on a label of which a row doesn't leave both presences.
pub fn by_row(universe: &Universe, row: &Row, label: u32) -> LabelKnowledge
    requires within { IsWithin universe.now }
    requires label { label < length universe.now.named }
    requires shape { HasShape universe.now row.now }
    requires settled { leaves_both universe.now row.now (name_at universe.now label) ≡ false }
    ensures { (env : Environment) (rules : List RuleTree) (i : ℕ) → IsLabelVerdict universe.now env rules i row.now (name_at universe.now label) (label_verdict result) }
{
    if leaves(universe, row, label, false) {
        LabelKnowledge::Impossible
    } else {
        LabelKnowledge::Guaranteed
    }
}
