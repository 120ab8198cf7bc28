//! Candidates: the texts that stand for classes, and the name that stands for `*`.
ghost use Rattle.std.specs.Prelude.{◌≡◌, ◌<◌, ◌++◌, cond, codes, decimal, eqb, length, not, IfOk};
ghost use Rattle.std.specs.List.{find};
ghost use Rattle.std.specs.Option.{option_map};
ghost use Rattle.lf_semantics.specs.ClassRows.{HasShape, Sets};
ghost use Rattle.lf_classes.specs.Limits.{IsWithin};
ghost use Rattle.lf_trials.specs.Candidates.{candidates_in, candidates_in_both, first, has_presence, other_name};
ghost use Rattle.lf_trials.specs.Verdicts.{leaves};
ghost use Rattle.lf_candidates.specs.views.ClassTexts.{IsClass, first_held, name_at, text_at};

use lf_base::{Memory, Text};
use lf_classes::{Row, Universe};
use std::alloc::Global;

/// The name of the label that stands for `*`: the first of `x1`, `x2`, .. that is no label of the universe.
pub fn other_name(alloc: Global, universe: &Universe) -> Result<Text, Memory>
    ensures { IfOk result (λ name. name ≡ other_name universe.now) }
{
    let star = universe.labels() - 1;
    for number in 0..star + 1 {
        let name = numbered(alloc, number as u64 + 1)?;
        if universe.label_of(name.as_str()) == star {
            return Ok(name);
        }
    }
    unreachable!()
}

/// `x` and a number.
fn numbered(alloc: Global, number: u64) -> Result<Text, Memory>
    ensures { IfOk result (λ name. name ≡ codes "x" ++ decimal number) }
{
    let name = format!(in alloc; "x{number}")?;
    Ok(Text::from_string(name))
}

/// The class of a label's first candidate in a row.
pub fn first_class(universe: &Universe, row: &Row, label: u32) -> Option<u32>
    requires universe { IsWithin universe.now }
    requires label { label < length universe.now.named }
    requires shape { HasShape universe.now row.now }
    ensures class { IsClass universe.now label result }
    ensures candidate { option_map (text_at universe.now label) result ≡ first (candidates_in universe.now row.now (name_at universe.now label)) }
{
    class_held(universe, label, first_held(universe, row, label))
}

/// The first class that a row has of a label, or how many classes the label has, where the row has none of them.
pub fn first_held(universe: &Universe, row: &Row, label: u32) -> u32
    requires universe { IsWithin universe.now }
    requires label { label < length universe.now.named }
    requires shape { HasShape universe.now row.now }
    ensures { result ≡ first_held row.now label }
{
    let classes = universe.classes(label);
    for class in 0..classes {
        if row.has(label, class) {
            return class;
        }
    }
    classes
}

/// The class of a label's first candidate in a row, by the first class that the row has of the label.
pub fn class_held(universe: &Universe, label: u32, held: u32) -> Option<u32>
    requires universe { IsWithin universe.now }
    requires label { label < length universe.now.named }
    ensures class { IsClass universe.now label result }
    ensures candidate { (row : Sets) → HasShape universe.now row → held ≡ first_held row label → option_map (text_at universe.now label) result ≡ first (candidates_in universe.now row (name_at universe.now label)) }
{
    if held < universe.classes(label) {
        Some(held)
    } else {
        None
    }
}

/// The class of a label's first candidate in two rows.
pub fn first_common_class(universe: &Universe, row: &Row, other: &Row, label: u32) -> Option<u32>
    requires universe { IsWithin universe.now }
    requires label { label < length universe.now.named }
    requires row { HasShape universe.now row.now }
    requires other { HasShape universe.now other.now }
    ensures class { IsClass universe.now label result }
    ensures candidate { option_map (text_at universe.now label) result ≡ first (candidates_in_both universe.now row.now other.now (name_at universe.now label)) }
{
    for class in 0..universe.classes(label) {
        if row.has(label, class) && other.has(label, class) {
            return Some(class);
        }
    }
    None
}

/// The class of a label's first candidate in a row that has a presence: the label is there, or it is absent.
pub fn first_class_with(universe: &Universe, row: &Row, label: u32, presence: bool) -> Option<u32>
    requires universe { IsWithin universe.now }
    requires label { label < length universe.now.named }
    requires shape { HasShape universe.now row.now }
    ensures class { IsClass universe.now label result }
    ensures candidate { option_map (text_at universe.now label) result ≡ find (has_presence presence) (candidates_in universe.now row.now (name_at universe.now label)) }
{
    if leaves(universe, row, label, presence) {
        first_found(universe, row, label, presence)
    } else {
        None
    }
}

/// Whether a row leaves a presence of a label, told of all classes at once: many labels have thousands.
pub fn leaves(universe: &Universe, row: &Row, label: u32, presence: bool) -> bool
    requires universe { IsWithin universe.now }
    requires label { label < length universe.now.named }
    requires shape { HasShape universe.now row.now }
    ensures { result ≡ leaves universe.now row.now (name_at universe.now label) presence }
{
    if presence {
        row.has_text(label)
    } else {
        row.has(label, 0)
    }
}

/// The class of the first candidate of a label in a row that has a presence, found class by class.
fn first_found(universe: &Universe, row: &Row, label: u32, presence: bool) -> Option<u32>
    requires universe { IsWithin universe.now }
    requires label { label < length universe.now.named }
    requires shape { HasShape universe.now row.now }
    ensures class { IsClass universe.now label result }
    ensures candidate { option_map (text_at universe.now label) result ≡ find (has_presence presence) (candidates_in universe.now row.now (name_at universe.now label)) }
{
    for class in 0..universe.classes(label) {
        if row.has(label, class) && is_with(presence, class) {
            return Some(class);
        }
    }
    None
}

/// Whether a class has a presence: the first class is that of the empty text, which says that the label is absent.
fn is_with(presence: bool, class: u32) -> bool
    ensures { result ≡ cond presence (not (eqb class 0)) (eqb class 0) }
{
    if presence { class > 0 } else { class == 0 }
}
