//! Sets of labels, and the changes of a row at each label of a set.
ghost use Rattle.std.specs.Prelude.{◌≡◌, ◌<◌, ◌&&◌, ◌||◌, cond, length, map, not, set, true, false, slice_index_or, IfOk};
ghost use Rattle.lf_semantics.specs.ClassRows.{holds, is_live, narrowed, only_empty, replaced};
ghost use Rattle.lf_semantics.specs.RowTable.{is_label_among, is_metric_label};
ghost use Rattle.lf_flow.specs.views.Chosen.{Chooses};

use lf_ast::Name;
use lf_base::Memory;
use lf_classes::{Row, Universe};
use std::alloc::Global;
use std::marker::Model;

/// For each label of a universe whether it is in the set.
#[derive(Drop)]
pub struct Labels {
    on: Vec<bool>,
}

impl Model for Labels {
    ghost use Rattle.std.specs.Prelude.{Bool, List};

    ghost Value = { List Bool };

    ghost view = { λ set. set.on.items };
}

impl Labels {
    /// The set of all labels, or of none.
    fn of(alloc: Global, universe: &Universe, on: bool) -> Result<Labels, Memory>
        ensures { IfOk result (Chooses universe.now (λ label. on)) }
    {
        let on = vec![in alloc; on; universe.labels() as usize]?;
        Ok(Labels { on })
    }

    /// The labels of these names.
    pub fn among(alloc: Global, universe: &Universe, names: &[Name]) -> Result<Labels, Memory>
        ensures { IfOk result (Chooses universe.now (is_label_among universe.now names.now)) }
    {
        let mut labels = Labels::of(alloc, universe, false)?;
        labels.put_each(universe, names, true);
        Ok(labels)
    }

    /// All labels but those of these names.
    pub fn without(alloc: Global, universe: &Universe, names: &[Name]) -> Result<Labels, Memory>
        ensures { IfOk result (Chooses universe.now (λ label. not (is_label_among universe.now names.now label))) }
    {
        let mut labels = Labels::of(alloc, universe, true)?;
        labels.put_each(universe, names, false);
        Ok(labels)
    }

    /// Puts the labels of names into the set where `on` is true, and else takes them out.
    fn put_each(&mut self, universe: &Universe, names: &[Name], on: bool)
        requires { length self.old ≡ length universe.now.named }
        ensures { Chooses universe.now (λ label. cond (is_label_among universe.now names.now label) on (slice_index_or self.old label false)) self.new }
    {
        for name in names {
            self.put(universe.label_of(name.text.as_str()), on);
        }
    }

    /// Takes the metric name out of the set.
    pub fn drop_metric(&mut self, universe: &Universe)
        requires { length self.old ≡ length universe.now.named }
        ensures { Chooses universe.now (λ label. slice_index_or self.old label false && not (is_metric_label universe.now label)) self.new }
    {
        self.put(universe.label_of("__name__"), false);
    }

    /// Puts a label into the set where `on` is true, and else takes it out.
    fn put(&mut self, label: u32, on: bool)
        requires { label < length self.old }
        ensures { self.new ≡ set self.old label on }
    {
        self.on[label as usize] = on;
    }

    /// Whether a label is in the set.
    fn has(&self, label: u32) -> bool
        requires { label < length self.now }
        ensures { result ≡ slice_index_or self.now label false }
    {
        self.on[label as usize]
    }

    /// Leaves each label that isn't in the set only the empty text.
    pub fn drop_others(&self, universe: &Universe, row: &mut Row)
        requires set { length self.now ≡ length universe.now.named }
        requires row { length row.old ≡ length universe.now.named }
        ensures { row.new ≡ only_empty (λ l. not (slice_index_or self.now l false)) row.old }
    {
        for label in 0..universe.labels() {
            if !self.has(label) {
                row.drop_label(label);
            }
        }
    }

    /// Leaves each label in the set the classes that another row, which isn't empty, has too.
    pub fn meet(&self, universe: &Universe, row: &mut Row, other: &Row)
        requires set { length self.now ≡ length universe.now.named }
        requires row { length row.old ≡ length universe.now.named }
        requires shape { map length row.old ≡ map length other.now }
        requires live { is_live row.old ≡ true }
        ensures { row.new ≡ narrowed (λ l c. not (slice_index_or self.now l false) || holds other.now l c) row.old }
    {
        for label in 0..universe.labels() {
            if self.has(label) {
                row.meet_label(label, other);
            }
        }
    }

    /// Gives each label in the set the classes that it has in another row.
    pub fn take(&self, universe: &Universe, row: &mut Row, other: &Row)
        requires set { length self.now ≡ length universe.now.named }
        requires row { length row.old ≡ length universe.now.named }
        requires shape { map length row.old ≡ map length other.now }
        ensures { row.new ≡ replaced (λ l. slice_index_or self.now l false) (holds other.now) row.old }
    {
        for label in 0..universe.labels() {
            if self.has(label) {
                row.take_label(label, other);
            }
        }
    }
}
