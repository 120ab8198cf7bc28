//! How many classes each label has, and where they stand in the bits of a row.
ghost use Rattle.std.specs.Prelude.{◌≡◌, ℕ, ◌+◌, ◌<◌, ◌≤◌, ◌^◌, length, slice_index, IfOk};
ghost use Rattle.std.specs.List.{sum};
ghost use Rattle.lf_classes.specs.views.Cut.{start};

use lf_base::Memory;
use std::alloc::Global;
use std::marker::Model;
use std::sync::Arc;

/// The number of classes of each label, and where they begin; behind them the place where all end.
#[derive(Drop)]
struct Parts {
    counts: Vec<usize>,
    starts: Vec<usize>,
}

/// How many classes each label has. The rows of a universe share it.
#[derive(Drop)]
pub struct Shape {
    parts: Arc<Parts, Global>,
}

impl Model for Shape {
    ghost use Rattle.std.specs.Prelude.{List, ℕ};
    ghost use Rattle.std.specs.Arc.{arc_value};
    ghost use Rattle.lf_classes.specs.views.Cut.{IsShape};

    ghost Value = { List ℕ };

    ghost view = { λ s. (arc_value s.parts).counts.items };

    ghost invariant = { λ s. IsShape (arc_value s.parts).counts.items (arc_value s.parts).starts.items };
}

impl Shape {
    /// The shape of labels with as many classes.
    pub fn of(alloc: Global, counts: Vec<usize>) -> Result<Shape, Memory>
        requires some { 0 < length counts.items }
        requires classes { (l : ℕ) → l < length counts.items → 0 < slice_index counts.items l }
        requires small { sum counts.items < 2 ^ 32 }
        ensures { IfOk result (λ shape. shape ≡ counts.items) }
    {
        let starts = places(alloc, counts.as_slice())?;
        let parts = Arc::new(alloc, Parts { counts, starts })?;
        Ok(Shape { parts })
    }

    /// The number of labels.
    pub fn labels(&self) -> usize
        ensures { result ≡ length self.now }
    {
        self.parts.counts.len()
    }

    /// The number of classes of a label.
    pub fn classes(&self, label: usize) -> usize
        requires { label < length self.now }
        ensures count { result ≡ slice_index self.now label }
        ensures some { 0 < result }
    {
        self.parts.counts[label]
    }

    /// The number of classes of all labels.
    pub fn total(&self) -> usize
        ensures sum { result ≡ sum self.now }
        ensures small { result < 2 ^ 32 }
        ensures labels { 0 < length self.now }
        ensures classes { (l : ℕ) → l < length self.now → 0 < slice_index self.now l }
    {
        self.parts.starts[self.parts.counts.len()]
    }

    /// Where the classes of a label begin.
    pub fn start(&self, label: usize) -> usize
        requires { label < length self.now }
        ensures { result ≡ start self.now label }
    {
        self.parts.starts[label]
    }

    /// Where the classes of a label end.
    pub fn end(&self, label: usize) -> usize
        requires { label < length self.now }
        ensures { result ≡ start self.now label + slice_index self.now label }
    {
        self.parts.starts[label + 1]
    }

    /// The same shape, which isn't copied.
    pub fn share(&self) -> Result<Shape, Memory>
        ensures { IfOk result (λ shape. shape ≡ self.now) }
    {
        let parts = Arc::try_clone(&self.parts)?;
        Ok(Shape { parts })
    }
}

/// Where the classes of each label begin, and behind them where all end.
fn places(alloc: Global, counts: &[usize]) -> Result<Vec<usize>, Memory>
    requires { sum counts.now < 2 ^ 32 }
    ensures count { IfOk result (λ starts. length starts.items ≡ length counts.now + 1) }
    ensures at { IfOk result (λ starts. (l : ℕ) → l ≤ length counts.now → slice_index starts.items l ≡ start counts.now l) }
{
    let mut starts = Vec::new(alloc);
    let mut place = 0;
    starts.push(place)?;
    for count in counts {
        place += *count;
        starts.push(place)?;
    }
    Ok(starts)
}
