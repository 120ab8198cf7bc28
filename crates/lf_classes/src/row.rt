//! Rows.
ghost use Rattle.std.specs.Prelude.{◌≡◌, ℕ, ◌<◌, ◌↔◌, ◌||◌, [], length, map, not, eqb, replicate, true, false, slice_index_or, IfOk, IsTrue};
ghost use Rattle.lf_semantics.specs.ClassRows.{meet, emptied, top, holds, is_live, kept, narrowed, bottom, only_empty, replaced, set_to, normalized, join};
ghost use Rattle.lf_semantics.specs.Environments.{Leq};
ghost use Rattle.lf_semantics.specs.Listing.{Listing};
ghost use Rattle.lf_semantics.specs.RowTable.{has_class};
ghost use Rattle.std.specs.List.{sum};
ghost use Rattle.lf_classes.specs.views.Cut.{cut};

mod words;

use crate::bits::{Bits, narrow, put};
use crate::shape::Shape;
use crate::universe::Universe;
use crate::word::Change;
use lf_base::Memory;
use std::alloc::Global;
use std::marker::Model;

/// For each label of a universe a set of its classes. A row in which some label has no class is the empty row, whose sets are all empty.
///
/// Labels and classes are numbered from 0, as by the universe. The calls that change or test a row take no memory.
#[derive(Drop)]
pub struct Row {
    shape: Shape,
    bits: Bits,
    live: bool,
}

impl Model for Row {
    ghost use Rattle.lf_semantics.specs.ClassRows.{Sets};
    ghost use Rattle.lf_classes.specs.views.Cut.{IsRow, cut, shown};

    ghost Value = { Sets };

    ghost view = { λ r. shown r.live (cut r.shape r.bits) };

    ghost invariant = { λ r. IsRow r.shape r.bits r.live };
}

impl Row {
    /// The row of a universe with no class of any label.
    pub fn empty(alloc: Global, universe: &Universe) -> Result<Row, Memory>
        ensures { IfOk result (λ row. row ≡ bottom universe.now) }
    {
        Row::of(alloc, universe.shape(), false)
    }

    /// The row of a universe with every class of each label.
    pub fn full(alloc: Global, universe: &Universe) -> Result<Row, Memory>
        ensures { IfOk result (λ row. row ≡ top universe.now) }
    {
        Row::of(alloc, universe.shape(), true)
    }

    /// The row of a shape with every class of each label, or with none.
    pub fn of(alloc: Global, shape: &Shape, on: bool) -> Result<Row, Memory>
        ensures full { on ≡ true → IfOk result (λ row. row ≡ map (λ count. replicate count true) shape.now) }
        ensures none { on ≡ false → IfOk result (λ row. row ≡ emptied (map (λ count. replicate count true) shape.now)) }
    {
        let bits = Bits::of(alloc, shape.total(), on)?;
        let shape = shape.share()?;
        Ok(Row {
            shape,
            bits,
            live: on,
        })
    }

    /// An equal row.
    pub fn copy(&self) -> Result<Row, Memory>
        ensures { IfOk result (λ row. row ≡ self.now) }
    {
        let shape = self.shape.share()?;
        let bits = self.bits.copy()?;
        Ok(Row {
            shape,
            bits,
            live: self.live,
        })
    }

    /// Whether a class is in the set of a label.
    pub fn has(&self, label: u32, class: u32) -> bool
        requires label { label < length self.now }
        requires class { class < length (slice_index_or self.now label []) }
        ensures { result ≡ holds self.now label class }
    {
        self.live
            && self
                .bits
                .get(self.shape.start(label as usize) + class as usize)
    }

    /// Whether a label has a class other than the first, which is that of the empty text.
    pub fn has_text(&self, label: u32) -> bool
        requires { label < length self.now }
        ensures { (universe : Listing) → result ≡ has_class universe (λ class. not (eqb class 0)) (slice_index_or self.now label []) }
    {
        self.live
            && self.bits.any(
                self.shape.start(label as usize) + 1,
                self.shape.end(label as usize),
            )
    }

    /// Whether no label has a class. Beside it stands what is known of every row.
    pub fn is_empty(&self) -> bool
        ensures empty { result ≡ not (is_live self.now) }
        ensures settled { normalized self.now ≡ self.now }
    {
        !self.live
    }

    /// Puts a class into the set of a label where `on` is true, and else takes it out. The empty row stays empty, and a row in which the label loses its last class
    /// becomes empty.
    pub fn keep(&mut self, label: u32, class: u32, on: bool)
        requires label { label < length self.old }
        requires class { class < length (slice_index_or self.old label []) }
        ensures { self.new ≡ kept label class on self.old }
    {
        if self.live {
            let from = self.shape.start(label as usize);
            let to = self.shape.end(label as usize);
            self.bits.set(from + class as usize, on);
            self.live = self.bits.any(from, to);
        }
    }

    /// Leaves a label, of the classes that it has, only one. A row in which the label loses its last class becomes empty.
    pub fn keep_class(&mut self, label: u32, class: u32)
        requires label { label < length self.old }
        requires class { class < length (slice_index_or self.old label []) }
        ensures { self.new ≡ narrowed (λ l c. not (eqb label l) || eqb c class) self.old }
    {
        if self.live {
            if self.has(label, class) {
                self.set_class(label, class);
            } else {
                self.live = false;
            }
        }
    }

    /// Gives a label every class. The empty row stays empty.
    pub fn fill_label(&mut self, label: u32)
        requires { label < length self.old }
        ensures { self.new ≡ replaced (λ l. eqb label l) (λ l c. true) self.old }
    {
        if self.live {
            let from = self.shape.start(label as usize);
            let to = self.shape.end(label as usize);
            self.bits.fill(true, from, to);
        }
    }

    /// Leaves a label only one class. The empty row stays empty.
    pub fn set_class(&mut self, label: u32, class: u32)
        requires label { label < length self.old }
        requires class { class < length (slice_index_or self.old label []) }
        ensures { self.new ≡ set_to label class self.old }
    {
        if self.live {
            let from = self.shape.start(label as usize);
            let to = self.shape.end(label as usize);
            self.bits.fill(false, from, to);
            self.bits.set(from + class as usize, true);
        }
    }

    /// Leaves a label only the empty text. The empty row stays empty.
    pub fn drop_label(&mut self, label: u32)
        requires { label < length self.old }
        ensures { self.new ≡ only_empty (λ l. eqb label l) self.old }
    {
        let _some = self.shape.classes(label as usize);
        self.set_class(label, 0);
    }

    /// Adds the classes of another row of the universe. An empty row adds nothing.
    pub fn join(&mut self, other: &Row)
        requires { map length self.old ≡ map length other.now }
        ensures { self.new ≡ join self.old other.now }
    {
        let end = self.bits.len();
        if other.live {
            if self.live {
                self.bits.change(&other.bits, Change::Join, 0, end);
            } else {
                self.bits.change(&other.bits, Change::Take, 0, end);
                self.live = true;
            }
        }
    }

    /// Leaves each label the classes that another row of the universe has too. A row in which a label loses its last class becomes empty.
    pub fn meet(&mut self, other: &Row)
        requires { map length self.old ≡ map length other.now }
        ensures { self.new ≡ meet self.old other.now }
    {
        if self.live {
            if other.live {
                let end = self.bits.len();
                self.bits.change(&other.bits, Change::Meet, 0, end);
                self.live = all_live(&self.shape, &self.bits);
            } else {
                self.live = false;
            }
        }
    }

    /// Makes the row the empty one.
    pub fn clear(&mut self)
        ensures { self.new ≡ emptied self.old }
    {
        self.live = false;
    }

    /// Leaves a label the classes that another row of the universe has of it too. A row in which the label loses its last class becomes empty.
    pub fn meet_label(&mut self, label: u32, other: &Row)
        requires label { label < length self.old }
        requires shape { map length self.old ≡ map length other.now }
        ensures { self.new ≡ narrowed (λ l c. not (eqb label l) || holds other.now l c) self.old }
    {
        if self.live {
            if other.live {
                let from = self.shape.start(label as usize);
                let to = self.shape.end(label as usize);
                self.bits.change(&other.bits, Change::Meet, from, to);
                self.live = has_class(&self.shape, &self.bits, label as usize);
            } else {
                self.live = false;
            }
        }
    }

    /// Gives a label the classes that another row of the universe has of it, and no others. The empty row stays empty, and a row becomes empty where the other is.
    pub fn take_label(&mut self, label: u32, other: &Row)
        requires label { label < length self.old }
        requires shape { map length self.old ≡ map length other.now }
        ensures { self.new ≡ replaced (λ l. eqb label l) (holds other.now) self.old }
    {
        if self.live {
            if other.live {
                let from = self.shape.start(label as usize);
                let to = self.shape.end(label as usize);
                self.bits.change(&other.bits, Change::Take, from, to);
            } else {
                self.live = false;
            }
        }
    }

    /// Gives a label the classes where `on` is true, and no others. The empty row stays empty, and a row whose label gets no class becomes empty.
    pub fn set_classes(&mut self, label: u32, on: &[bool])
        requires label { label < length self.old }
        requires classes { length on.now ≡ length (slice_index_or self.old label []) }
        ensures { self.new ≡ replaced (λ l. eqb label l) (λ l c. slice_index_or on.now c false) self.old }
    {
        if self.live {
            let from = self.shape.start(label as usize);
            put(&mut self.bits, from, on);
            self.live = has_class(&self.shape, &self.bits, label as usize);
        }
    }

    /// Leaves a label the classes where `on` is true too. A row in which the label loses its last class becomes empty.
    pub fn narrow_classes(&mut self, label: u32, on: &[bool])
        requires label { label < length self.old }
        requires classes { length on.now ≡ length (slice_index_or self.old label []) }
        ensures { self.new ≡ narrowed (λ l c. not (eqb label l) || slice_index_or on.now c false) self.old }
    {
        if self.live {
            let from = self.shape.start(label as usize);
            narrow(&mut self.bits, from, on);
            self.live = has_class(&self.shape, &self.bits, label as usize);
        }
    }

    /// Whether another row of the universe lies under this one: it is empty, or this one has each of its classes. Then it adds nothing where it is joined.
    pub fn covers(&self, other: &Row) -> bool
        requires { map length self.now ≡ map length other.now }
        ensures under { IsTrue result ↔ Leq other.now self.now }
        ensures same { result ≡ true → join self.now other.now ≡ self.now }
    {
        !other.live || (self.live && other.bits.lies_in(&self.bits))
    }
}

/// Whether a label has a class.
fn has_class(shape: &Shape, bits: &Bits, label: usize) -> bool
    requires label { label < length shape.now }
    requires total { length bits.now ≡ sum shape.now }
    ensures some { result ≡ true → (class : ℕ) × (holds (cut shape.now bits.now) label class ≡ true) }
    ensures none { result ≡ false → is_live (cut shape.now bits.now) ≡ false }
{
    bits.any(shape.start(label), shape.end(label))
}

/// Whether each label has a class.
fn all_live(shape: &Shape, bits: &Bits) -> bool
    requires { length bits.now ≡ sum shape.now }
    ensures { result ≡ is_live (cut shape.now bits.now) }
{
    for label in 0..shape.labels() {
        if !has_class(shape, bits, label) {
            return false;
        }
    }
    true
}
