//! What a world is built to show.
ghost use Rattle.std.specs.Prelude.{◌≡◌, ◌<◌, cond, length, set, is_some, true, None, Some, IfOk, OnOk};
ghost use Rattle.std.specs.List.{list_all};
ghost use Rattle.std.specs.Option.{option_map_or};
ghost use Rattle.lf_classes.specs.Limits.{IsWithin};
ghost use Rattle.lf_semantics.specs.ClassRows.{HasShape, Sets};
ghost use Rattle.lf_semantics.specs.Listing.{Listing};
ghost use Rattle.lf_trials.specs.Candidates.{labels_in};
ghost use Rattle.lf_trials.specs.Given.{Given, completed, completed_by, giving, holds_text, holds_texts, label_set, losing, nothing_given, with_text};
ghost use Rattle.lf_candidates.specs.views.ClassTexts.{IsClass, Stands, StandsAt, StandsFor, class_at, name_at, text_at};
ghost use Rattle.lf_candidates.specs.views.Packed.{IsPacked};

use crate::packed_row::PackedRow;
use lf_ast::{LabelChoice, LabelSet};
use lf_base::{Memory, Text};
use lf_classes::{Row, Universe};
use std::alloc::Global;
use std::marker::Model;

/// Texts of labels: for each label of the universe, `*` among them, the class whose candidate it is to have, or nothing. The class of the empty text says that the label
/// is absent.
#[derive(Drop)]
pub struct LabelTexts {
    classes: Vec<Option<u32>>,
}

impl Model for LabelTexts {
    ghost use Rattle.std.specs.Prelude.{List, Option, ℕ};

    ghost Value = { List (Option ℕ) };

    ghost view = { λ texts. texts.classes.items };
}

impl LabelTexts {
    /// Nothing is said of any label.
    pub fn nothing(alloc: Global, universe: &Universe) -> Result<LabelTexts, Memory>
        requires { IsWithin universe.now }
        ensures { IfOk result (λ texts. Stands universe.now texts nothing_given) }
    {
        let classes = vec![in alloc; None; universe.labels() as usize]?;
        Ok(LabelTexts { classes })
    }

    /// Equal ones.
    pub fn copy(&self) -> Result<LabelTexts, Memory>
        ensures { IfOk result (λ texts. texts ≡ self.now) }
    {
        let classes = Vec::from_slice(*self.classes.allocator(), self.classes.as_slice())?;
        Ok(LabelTexts { classes })
    }

    /// The class of a label.
    pub fn get(&self, label: usize) -> Option<u32>
        requires { label < length self.now }
        ensures { result ≡ class_at self.now label }
    {
        self.classes[label]
    }

    /// Sets the class of a label.
    pub fn put(&mut self, label: usize, class: Option<u32>)
        requires { label < length self.old }
        ensures { self.new ≡ set self.old label class }
    {
        self.classes[label] = class;
    }

    /// Gives a label the candidate of a class.
    pub fn give(&mut self, label: u32, class: u32)
        requires { label < length self.old }
        ensures { (u : Listing) (D : Given) → IsWithin u → IsClass u label (Some class) → Stands u self.old D → Stands u self.new (giving (name_at u label) (text_at u label class) D) }
    {
        self.put(label as usize, Some(class));
    }

    /// Says nothing of the labels of a choice. The names are those of the labels, in their order.
    pub fn lose<C: LabelChoice>(&mut self, names: &[Text], choice: &C)
        requires { length self.old ≡ length names.now }
        ensures count { length self.new ≡ length self.old }
        ensures texts { (u : Listing) (D : Given) → IsWithin u → names.now ≡ labels_in u → Stands u self.old D → Stands u self.new (losing (C.chooses choice.now) D) }
    {
        for label in 0..names.len() {
            let lost = choice.chooses(names[label].as_str());
            self.put(label, unless_lost(lost, self.get(label)));
        }
    }

    /// These texts, and of each label of which they say nothing its first candidate in a row. There are none where the row is empty, and where a label is left without a text.
    pub fn completed_by(mut self, universe: &Universe, row: &PackedRow) -> Option<LabelTexts>
        requires universe { IsWithin universe.now }
        requires row { (whole : Sets) × IsPacked universe.now whole row.now }
        requires count { length self ≡ length universe.now.named }
        ensures { (whole : Sets) (D : Given) → IsPacked universe.now whole row.now → Stands universe.now self D → StandsFor universe.now result (completed universe.now whole D) }
    {
        if row.is_empty() {
            return None;
        }
        self.complete(universe, row);
        if self.is_whole() { Some(self) } else { None }
    }

    /// Gives each label of which nothing is said its first candidate in a row, if it has one.
    fn complete(&mut self, universe: &Universe, row: &PackedRow)
        requires universe { IsWithin universe.now }
        requires row { (whole : Sets) × IsPacked universe.now whole row.now }
        requires count { length self.old ≡ length universe.now.named }
        ensures { (whole : Sets) (D : Given) → IsPacked universe.now whole row.now → Stands universe.now self.old D → Stands universe.now self.new (completed_by universe.now whole D) }
    {
        for label in 0..universe.labels() {
            let place = label as usize;
            let class = completed_class(universe, row, label, self.get(place));
            self.put(place, class);
        }
    }

    /// Whether something is said of each label.
    pub fn is_whole(&self) -> bool
        ensures { (u : Listing) (D : Given) → IsWithin u → Stands u self.now D → result ≡ list_all (λ name. is_some (D name)) (labels_in u) }
    {
        for label in 0..self.classes.len() {
            if self.get(label).is_none() {
                return false;
            }
        }
        true
    }

    /// Whether a row isn't empty and has, of each label of which something is said, the class.
    pub fn is_held_by(&self, universe: &Universe, row: &Row) -> bool
        requires universe { IsWithin universe.now }
        requires shape { HasShape universe.now row.now }
        requires given { (D : Given) × Stands universe.now self.now D }
        ensures { (D : Given) → Stands universe.now self.now D → result ≡ holds_texts universe.now row.now D }
    {
        if row.is_empty() {
            return false;
        }
        for label in 0..universe.labels() {
            if !has_class(universe, row, label, self.get(label as usize)) {
                return false;
            }
        }
        true
    }

    /// The label set of the texts. The names are those of the labels, in their order.
    pub fn label_set(
        &self,
        alloc: Global,
        universe: &Universe,
        names: &[Text],
    ) -> Result<LabelSet, Memory>
        requires universe { IsWithin universe.now }
        requires names { names.now ≡ labels_in universe.now }
        requires given { (D : Given) × Stands universe.now self.now D }
        ensures { (D : Given) → Stands universe.now self.now D → IfOk result (λ s. s ≡ label_set (labels_in universe.now) D) }
    {
        let mut labels = LabelSet::new(alloc);
        let mut label = names.len();
        while label > 0 {
            label -= 1;
            put_class(
                universe,
                label as u32,
                &names[label],
                self.get(label),
                &mut labels,
            )?;
        }
        Ok(labels)
    }
}

/// What is said of a label, but nothing where it is lost.
pub fn unless_lost(lost: bool, class: Option<u32>) -> Option<u32>
    ensures { result ≡ cond lost None class }
{
    if lost { None } else { class }
}

/// What is said of a label, or else its first candidate in a row.
fn completed_class(
    universe: &Universe,
    row: &PackedRow,
    label: u32,
    class: Option<u32>,
) -> Option<u32>
    requires universe { IsWithin universe.now }
    requires row { (whole : Sets) × IsPacked universe.now whole row.now }
    requires label { label < length universe.now.named }
    ensures { (whole : Sets) (D : Given) → IsPacked universe.now whole row.now → StandsAt universe.now label class D → StandsAt universe.now label result (completed_by universe.now whole D) }
{
    match class {
        Some(class) => Some(class),
        None => row.first_class(universe, label),
    }
}

/// Whether a row, which isn't empty, has the class of a label, if one is said.
fn has_class(universe: &Universe, row: &Row, label: u32, class: Option<u32>) -> bool
    requires universe { IsWithin universe.now }
    requires shape { HasShape universe.now row.now }
    requires label { label < length universe.now.named }
    requires class { IsClass universe.now label class }
    ensures { (D : Given) → StandsAt universe.now label class D → result ≡ option_map_or (holds_text universe.now row.now (name_at universe.now label)) (D (name_at universe.now label)) true }
{
    match class {
        Some(class) => row.has(label, class),
        None => true,
    }
}

/// Puts the text of a label, if one is said. The empty text puts nothing.
fn put_class(
    universe: &Universe,
    label: u32,
    name: &Text,
    class: Option<u32>,
    labels: &mut LabelSet,
) -> Result<(), Memory>
    requires universe { IsWithin universe.now }
    requires label { label < length universe.now.named }
    requires name { name.now ≡ name_at universe.now label }
    requires class { IsClass universe.now label class }
    ensures { (D : Given) → StandsAt universe.now label class D → OnOk result (labels.new ≡ option_map_or (λ text. with_text name.now text labels.old) (D name.now) labels.old) }
{
    match class {
        Some(class) => put_text(labels, name, universe.candidate(label, class)),
        None => Ok(()),
    }
}

/// Puts the text of a label. The empty text puts nothing.
fn put_text(labels: &mut LabelSet, name: &Text, text: &Text) -> Result<(), Memory>
    ensures { OnOk result (labels.new ≡ with_text name.now text.now labels.old) }
{
    if text.len() == 0 {
        return Ok(());
    }
    labels.set(name, text)
}
